//! The numbers of a log as they are written.
ghost use Rattle.std.specs.Prelude.{◌≡◌, ◌++◌, OnOk, IfOk, map, string_bytes};
ghost use Rattle.std.specs.List.{flat_map, join_with_byte};
ghost use Rattle.mgr_show.specs.Told.{end_name, numbers_bytes, operations_line, operations_members, size_lines, size_members, tally_line, tally_object, text_name};

use crate::counts::Counts;
use crate::numbers::{Numbers, TextIs};
use crate::tallies::Tally;
use rga_exchange::LogEnd;
use std::alloc::{AllocError, Global};
use std::collections::BTreeMap;

/// Numbers as lines for people, or as an object of JSON in one line.
#[tactic(auto, unfolding(crate::specs::Told::numbers_bytes))]
pub(crate) fn numbers_text(
    alloc: Global,
    name: &str,
    json: bool,
    numbers: Numbers,
) -> Result<String, AllocError>
    ensures { IfOk result (λ text. string_bytes text ≡ numbers_bytes json name.now numbers) }
{
    let mut text = String::new(alloc);
    if json {
        push_operations_members(&mut text, &numbers.counts)?;
        push_size_members(&mut text, &numbers)?;
        text.push_str(",\"replicas\":[")?;
        push_objects(&mut text, numbers.counts.tallies)?;
        text.push_str("]}\n")?;
        return Ok(text);
    }
    push_operations_line(&mut text, name, &numbers.counts)?;
    push_size_lines(&mut text, &numbers)?;
    push_lines(&mut text, numbers.counts.tallies)?;
    Ok(text)
}

#[tactic(auto, unfolding(crate::specs::Told::operations_line))]
fn push_operations_line(text: &mut String, name: &str, counts: &Counts) -> Result<(), AllocError>
    ensures { OnOk result (string_bytes text.new
        ≡ string_bytes text.old ++ operations_line name.now counts.now) }
{
    write!(
        text,
        "{name}.ops: {} operations: {} insertions, {} deletions\n",
        counts.operations, counts.insertions, counts.deletions,
    )
}

#[tactic(auto, unfolding(crate::specs::Told::size_lines))]
fn push_size_lines(text: &mut String, numbers: &Numbers) -> Result<(), AllocError>
    ensures { OnOk result (string_bytes text.new
        ≡ string_bytes text.old ++ size_lines numbers.now) }
{
    let end = name_of_end(numbers.end);
    let is = name_of_text(numbers.text);
    write!(
        text,
        "{} visible, {} waiting, {} bytes, ends {end}\ntext: {is}\n",
        numbers.counts.visible, numbers.counts.waiting, numbers.bytes,
    )
}

/// Adds a line for each replica.
fn push_lines(text: &mut String, tallies: BTreeMap<u16, Tally>) -> Result<(), AllocError>
    ensures { OnOk result (string_bytes text.new
        ≡ string_bytes text.old ++ flat_map tally_line tallies.entries) }
{
    let mut rest = tallies;
    'replicas: while let Some((replica, tally)) = rest.pop_first() {
        push_line(text, replica, tally)?;
    }
    Ok(())
}

#[tactic(auto, unfolding(crate::specs::Told::tally_line))]
fn push_line(text: &mut String, replica: u16, tally: Tally) -> Result<(), AllocError>
    ensures { OnOk result (string_bytes text.new
        ≡ string_bytes text.old ++ tally_line (replica, tally)) }
{
    write!(
        text,
        "replica {replica}: {} characters, greatest counter {}\n",
        tally.characters, tally.counter,
    )
}

#[tactic(auto, unfolding(crate::specs::Told::operations_members))]
fn push_operations_members(text: &mut String, counts: &Counts) -> Result<(), AllocError>
    ensures { OnOk result (string_bytes text.new
        ≡ string_bytes text.old ++ operations_members counts.now) }
{
    write!(
        text,
        "{{\"operations\":{},\"insertions\":{},\"deletions\":{}",
        counts.operations, counts.insertions, counts.deletions,
    )
}

#[tactic(auto, unfolding(crate::specs::Told::size_members))]
fn push_size_members(text: &mut String, numbers: &Numbers) -> Result<(), AllocError>
    ensures { OnOk result (string_bytes text.new
        ≡ string_bytes text.old ++ size_members numbers.now) }
{
    let counts = &numbers.counts;
    let end = name_of_end(numbers.end);
    let is = name_of_text(numbers.text);
    write!(
        text,
        ",\"visible\":{},\"waiting\":{},\"bytes\":{},\"end\":\"{end}\",\"text\":\"{is}\"",
        counts.visible, counts.waiting, numbers.bytes,
    )
}

/// Adds an object for each replica, with commas between them.
fn push_objects(text: &mut String, tallies: BTreeMap<u16, Tally>) -> Result<(), AllocError>
    ensures { OnOk result (string_bytes text.new
        ≡ string_bytes text.old ++ join_with_byte 44 (map tally_object tallies.entries)) }
{
    let mut rest = tallies;
    let Some((first, tally)) = rest.pop_first() else {
        return Ok(());
    };
    push_object(text, first, tally)?;
    'others: while let Some((other, tally)) = rest.pop_first() {
        text.push_str(",")?;
        push_object(text, other, tally)?;
    }
    Ok(())
}

#[tactic(auto, unfolding(crate::specs::Told::tally_object))]
fn push_object(text: &mut String, replica: u16, tally: Tally) -> Result<(), AllocError>
    ensures { OnOk result (string_bytes text.new
        ≡ string_bytes text.old ++ tally_object (replica, tally)) }
{
    write!(
        text,
        "{{\"replica\":{replica},\"characters\":{},\"counter\":{}}}",
        tally.characters, tally.counter,
    )
}

fn name_of_end(end: LogEnd) -> &'static str
    ensures { result.now ≡ end_name end }
{
    match end {
        LogEnd::Whole => "whole",
        LogEnd::Bare => "bare",
        LogEnd::Torn(_) => "torn",
    }
}

fn name_of_text(text: TextIs) -> &'static str
    ensures { result.now ≡ text_name text }
{
    match text {
        TextIs::Same => "same",
        TextIs::Other => "other",
        TextIs::Unread => "unread",
    }
}
