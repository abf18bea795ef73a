//! What a value says as a line.
ghost use Rattle.std.specs.Prelude.{◌≡◌, ◌≢◌, IfOk, IfErr, Err};
ghost use Rattle.std.specs.Str.{chars};
ghost use Rattle.serde_json.specs.View.{view, items_view};
ghost use Rattle.rga_lines.specs.Table.{count_of, two_numbers, element_of, parent_of};
ghost use Rattle.rga_lines.specs.Table.{single_reading, insertion, deletion, run, run_of_deletions, deletions_reading, heading, ending};
ghost use Rattle.rga_lines.specs.Table.{with_run_end, last, of_kind, value_line};
ghost use Rattle.rga_lines.specs.Memory.{LineMemory as Memory};

use crate::deletion_run::DeletionRun;
use crate::fault::LineFault;
use crate::line::Line;
use crate::parts::{element, element_or_root, only_char};
use crate::run::{MAX_RUN, Run};
use rga_ops::{Id, Op, OutOfMemory};
use serde_json::Value;
use std::alloc::Global;

/// The version of the lines that the head of an exchange names.
const VERSION: u64 = 2;

/// What a value says as a line: an object with exactly the members of one of the kinds of `Line`.
/// The faults are answered in the order that `LineFault` tells; `Long` and `Json` are of bytes, and
/// no value has them.
#[tactic(auto, unfolding(crate::specs::Table::value_line))]
pub fn line_of(alloc: Global, value: &Value) -> Result<Line, LineFault>
    ensures { result ≢ Err Memory → result ≡ value_line (view value.now) }
{
    let count = count(value).ok_or(LineFault::Kind)?;
    let op = value.get("op").ok_or(LineFault::Member)?;
    let name = op.as_str().ok_or(LineFault::Kind)?;
    named(alloc, name, count, value)
}

/// The line with this `op`, by an object of so many members.
fn named(alloc: Global, name: &str, members: usize, value: &Value) -> Result<Line, LineFault>
    ensures { result ≢ Err Memory → result ≡ of_kind members (view value.now) name.now }
{
    if name == "ins" {
        insertion(members, value)
    } else if name == "del" {
        deletion(members, value)
    } else if name == "run" {
        run(alloc, members, value)
    } else if name == "dels" {
        deletions(members, value)
    } else if name == "head" {
        heading(members, value)
    } else if name == "end" {
        ending(members, value)
    } else {
        Err(LineFault::Kind)
    }
}

/// How many members the value has, where it is an object.
fn count(value: &Value) -> Option<usize>
    ensures { result ≡ count_of (view value.now) }
{
    Some(value.as_object()?.len())
}

fn insertion(members: usize, value: &Value) -> Result<Line, LineFault>
    ensures { result ≡ single_reading (insertion members (view value.now)) }
{
    if members != 4 {
        return Err(LineFault::Member);
    }
    let text = value.get("char").ok_or(LineFault::Member)?;
    let id = value.get("id").ok_or(LineFault::Member)?;
    let parent = value.get("parent").ok_or(LineFault::Member)?;
    let text = text.as_str().ok_or(LineFault::Kind)?;
    let id = id.as_array().ok_or(LineFault::Kind)?;
    let parent = parent.as_array().ok_or(LineFault::Kind)?;
    let id = element_of(id).ok_or(LineFault::Id)?;
    let parent = parent_of(parent).ok_or(LineFault::Id)?;
    let ch = only_char(text).ok_or(LineFault::Char)?;
    if id.counter() <= parent.counter() {
        Err(LineFault::Order)
    } else {
        Ok(Line::One(Op::Insert { id, parent, ch }))
    }
}

fn deletion(members: usize, value: &Value) -> Result<Line, LineFault>
    ensures { result ≡ single_reading (deletion members (view value.now)) }
{
    if members != 2 {
        return Err(LineFault::Member);
    }
    let id = value.get("id").ok_or(LineFault::Member)?;
    let id = id.as_array().ok_or(LineFault::Kind)?;
    let id = element_of(id).ok_or(LineFault::Id)?;
    Ok(Line::One(Op::Delete { id }))
}

/// A run, by an object of so many members.
fn run(alloc: Global, members: usize, value: &Value) -> Result<Line, LineFault>
    ensures { result ≢ Err Memory → result ≡ run members (view value.now) }
{
    if members != 4 {
        return Err(LineFault::Member);
    }
    let id = value.get("id").ok_or(LineFault::Member)?;
    let parent = value.get("parent").ok_or(LineFault::Member)?;
    let text = value.get("text").ok_or(LineFault::Member)?;
    let text = text.as_str().ok_or(LineFault::Kind)?;
    let id = id.as_array().ok_or(LineFault::Kind)?;
    let parent = parent.as_array().ok_or(LineFault::Kind)?;
    let id = element_of(id).ok_or(LineFault::Id)?;
    let parent = parent_of(parent).ok_or(LineFault::Id)?;
    run_of(alloc, id, parent, text)
}

/// The run of a text with this identifier and this parent.
fn run_of(alloc: Global, id: Id, parent: Id, text: &str) -> Result<Line, LineFault>
    ensures { result ≢ Err Memory → result ≡ with_run_end id parent (chars text.now) }
{
    let chars = characters(alloc, text)?;
    let count = chars.len();
    if id.counter() + count as u64 > Id::MAX_COUNTER + 1 {
        return Err(LineFault::Id);
    }
    if count == 0 || count > MAX_RUN {
        return Err(LineFault::Char);
    }
    if parent.counter() < id.counter() {
        Ok(Line::Run(Run { id, parent, chars }))
    } else {
        Err(LineFault::Order)
    }
}

/// The characters of a text. `Memory` is the only refusal.
pub fn characters(alloc: Global, text: &str) -> Result<Vec<char>, OutOfMemory>
    ensures ok { IfOk result (λ v. v.items ≡ chars text.now) }
{
    Ok(text.chars().collect(alloc)?)
}

/// A run of deletions, by an object of so many members.
fn deletions(members: usize, value: &Value) -> Result<Line, LineFault>
    ensures { result ≡ run_of_deletions (deletions_reading members (view value.now)) }
{
    if members != 3 {
        return Err(LineFault::Member);
    }
    let count = value.get("count").ok_or(LineFault::Member)?;
    let id = value.get("id").ok_or(LineFault::Member)?;
    let count = count.as_u64().ok_or(LineFault::Kind)?;
    let id = id.as_array().ok_or(LineFault::Kind)?;
    let id = element_of(id).ok_or(LineFault::Id)?;
    if u128::from(id.counter()) + u128::from(count) > u128::from(Id::MAX_COUNTER + 1) {
        return Err(LineFault::Id);
    }
    if count == 0 || count > MAX_RUN as u64 {
        return Err(LineFault::Char);
    }
    Ok(Line::Deletions(DeletionRun { id, count }))
}

/// The head of an exchange, by an object of so many members.
fn heading(members: usize, value: &Value) -> Result<Line, LineFault>
    ensures { result ≡ heading members (view value.now) }
{
    if members != 2 {
        return Err(LineFault::Member);
    }
    let version = value.get("version").ok_or(LineFault::Member)?;
    match version.as_u64() {
        Some(VERSION) => Ok(Line::Head),
        _ => Err(LineFault::Kind),
    }
}

/// How many operations the exchange had that ends here, by an object of so many members.
fn ending(members: usize, value: &Value) -> Result<Line, LineFault>
    ensures { result ≡ last (ending members (view value.now)) }
{
    if members != 2 {
        return Err(LineFault::Member);
    }
    let count = value.get("count").ok_or(LineFault::Member)?;
    let count = count.as_u64().ok_or(LineFault::Kind)?;
    Ok(Line::Last(count))
}

/// The whole numbers of an array of exactly two. `None` where it is another.
pub fn two_numbers(items: &Vec<Value>) -> Option<(u64, u64)>
    ensures { result ≡ two_numbers (items_view items.now.items) }
{
    let [first, second] = items.as_slice() else {
        return None;
    };
    Some((first.as_u64()?, second.as_u64()?))
}

/// The identifier of an element.
fn element_of(items: &Vec<Value>) -> Option<Id>
    ensures { result ≡ element_of (items_view items.now.items) }
{
    let (counter, replica) = two_numbers(items)?;
    element(counter, u16::try_from(replica).ok()?)
}

/// The identifier of an element, or the root. `None` where the array is neither.
pub fn parent_of(items: &Vec<Value>) -> Option<Id>
    ensures { result ≡ parent_of (items_view items.now.items) }
{
    let (counter, replica) = two_numbers(items)?;
    element_or_root(counter, u16::try_from(replica).ok()?)
}
