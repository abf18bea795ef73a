//! What a value says as a report.
ghost use Rattle.std.specs.Prelude.{◌≡◌, ◌≢◌, codes, IfOk, IfErr, Err};
ghost use Rattle.serde_json.specs.View.{items_view, view};
ghost use Rattle.serde_json.specs.Find.{get};
ghost use Rattle.rga_lines.specs.Table.{value_line};
ghost use Rattle.rga_lines.specs.Memory.{LineMemory as Memory};
ghost use Rattle.mg_events.specs.Reports as spec;

use crate::report::{Places, Report};
use mg_plain::Chars;
use rga_lines::{Line, LineFault, characters, line_of, parent_of};
use rga_ops::{Id, OutOfMemory};
use serde_json::Value;
use std::alloc::Global;

/// What a value says as a report. The faults are answered in the order that `read_report` tells;
/// `Long` and `Json` are of bytes, and no value has them.
#[tactic(auto, unfolding(crate::specs::Reports::value_report))]
pub(crate) fn report_of(alloc: Global, value: &Value) -> Result<Report, LineFault>
    ensures { result ≢ Err Memory → result ≡ spec.value_report (view value.now) }
{
    if let Some(op) = value.get("op")
        && let Some(name) = op.as_str()
    {
        return named(alloc, name, value);
    }
    operations_report(line_of(alloc, value))
}

/// The report with this `op`.
fn named(alloc: Global, name: &str, value: &Value) -> Result<Report, LineFault>
    ensures { result ≢ Err Memory
        → result ≡ spec.of_kind (value_line (view value.now)) (view value.now) name.now }
{
    if name == "paste" {
        paste(alloc, member_count(value), value)
    } else if name == "splice" {
        splice(alloc, member_count(value), value)
    } else if name == "size" {
        size(member_count(value), value)
    } else if name == "places" {
        places(alloc, member_count(value), value)
    } else if name == "rest" {
        (member_count(value) == 1)
            .then_some(Report::Rest)
            .ok_or(LineFault::Member)
    } else {
        operations_report(line_of(alloc, value))
    }
}

/// What a line of operations says as a report: its head and its end are none.
pub(crate) fn operations_report(said: Result<Line, LineFault>) -> Result<Report, LineFault>
    ensures { result ≡ spec.operations_report said }
{
    match said {
        Ok(Line::One(op)) => Ok(Report::One(op)),
        Ok(Line::Run(run)) => Ok(Report::Run(run)),
        Ok(Line::Deletions(run)) => Ok(Report::Deletions(run)),
        Ok(Line::Head) | Ok(Line::Last(_)) => Err(LineFault::Kind),
        Err(fault) => Err(fault),
    }
}

/// How many members the value has; none if it is no object.
fn member_count(value: &Value) -> usize
    ensures { result ≡ spec.member_count (view value.now) }
{
    match value.as_object() {
        Some(members) => members.len(),
        None => 0,
    }
}

/// How many members `more` takes.
fn more_count(value: &Value) -> usize
    ensures { result ≡ spec.more_count (get (codes "more") (view value.now)) }
{
    value.get("more").map_or(0, |_| 1)
}

/// Whether there is more; `None` if `more` is no boolean.
fn more_of(value: &Value) -> Option<bool>
    ensures { result ≡ spec.more_of (get (codes "more") (view value.now)) }
{
    value.get("more").map_or(Some(false), |more| more.as_bool())
}

/// Pasted text, by an object of so many members.
fn paste(alloc: Global, members: usize, value: &Value) -> Result<Report, LineFault>
    ensures { result ≢ Err Memory → result ≡ spec.paste members (view value.now) }
{
    if members != 2 + more_count(value) {
        return Err(LineFault::Member);
    }
    let text = value.get("text").ok_or(LineFault::Member)?;
    let text = text.as_str().ok_or(LineFault::Kind)?;
    let more = more_of(value).ok_or(LineFault::Kind)?;
    let text = Chars::from(characters(alloc, text)?);
    Ok(Report::Paste { text, more })
}

/// Characters in place of others, by an object of so many members.
fn splice(alloc: Global, members: usize, value: &Value) -> Result<Report, LineFault>
    ensures { result ≢ Err Memory → result ≡ spec.splice members (view value.now) }
{
    if members != 5 + more_count(value) {
        return Err(LineFault::Member);
    }
    let base = value.get("base").ok_or(LineFault::Member)?;
    let hi = value.get("hi").ok_or(LineFault::Member)?;
    let lo = value.get("lo").ok_or(LineFault::Member)?;
    let text = value.get("text").ok_or(LineFault::Member)?;
    let base = base.as_u64().ok_or(LineFault::Kind)?;
    let hi = hi.as_u64().ok_or(LineFault::Kind)?;
    let lo = lo.as_u64().ok_or(LineFault::Kind)?;
    let text = text.as_str().ok_or(LineFault::Kind)?;
    let more = more_of(value).ok_or(LineFault::Kind)?;
    let text = Chars::from(characters(alloc, text)?);
    Ok(Report::Splice {
        base,
        lo,
        hi,
        text,
        more,
    })
}

/// The size of the screen, by an object of so many members.
fn size(members: usize, value: &Value) -> Result<Report, LineFault>
    ensures { result ≡ spec.size members (view value.now) }
{
    if members != 3 {
        return Err(LineFault::Member);
    }
    let columns = value.get("cols").ok_or(LineFault::Member)?;
    let rows = value.get("rows").ok_or(LineFault::Member)?;
    let columns = columns.as_u64().ok_or(LineFault::Kind)?;
    let rows = rows.as_u64().ok_or(LineFault::Kind)?;
    Ok(Report::Size { rows, columns })
}

/// Places of others, by an object of so many members.
fn places(alloc: Global, members: usize, value: &Value) -> Result<Report, LineFault>
    ensures { result ≢ Err Memory → result ≡ spec.places members (view value.now) }
{
    if members != 2 {
        return Err(LineFault::Member);
    }
    let places = value.get("places").ok_or(LineFault::Member)?;
    let items = places.as_array().ok_or(LineFault::Kind)?;
    if !are_arrays(items.as_slice()) {
        return Err(LineFault::Kind);
    }
    let all = places_of(alloc, items.as_slice())?.ok_or(LineFault::Id)?;
    Ok(Report::Places(Places { all }))
}

fn are_arrays(items: &[Value]) -> bool
    ensures { result ≡ spec.are_arrays (items_view items.now) }
{
    let mut rest = items;
    'items: while let Some((item, behind)) = rest.split_first() {
        if !item.is_array() {
            return false;
        }
        rest = behind;
    }
    true
}

/// The identifiers. `None` if one of them is none.
fn places_of(alloc: Global, items: &[Value]) -> Result<Option<Vec<Id>>, OutOfMemory>
    ensures ok { IfOk result (λ o. spec.ids_in o ≡ spec.places_of (items_view items.now)) }
{
    let mut all = Vec::new(alloc);
    let mut rest = items;
    'items: while let Some((item, behind)) = rest.split_first() {
        let Some(id) = item.as_array().and_then(|numbers| parent_of(numbers)) else {
            return Ok(None);
        };
        all.push(id)?;
        rest = behind;
    }
    Ok(Some(all))
}
