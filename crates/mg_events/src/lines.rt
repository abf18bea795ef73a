//! The line of a status.
ghost use Rattle.std.specs.Prelude.{◌≡◌, Some, IfOk, OnOk, string_bytes};
ghost use Rattle.json.specs.Json.{document};
ghost use Rattle.mg_events.specs.Added.{AddsValue};
ghost use Rattle.mg_events.specs.StatusText.{asking_name, saved_name};
ghost use Rattle.mg_events.specs.StatusText.{status_json, status_object, status_text};

use crate::arrays::{add_changes, add_places, add_refusals, add_windows};
use crate::members::{add_count, add_flag, add_text};
use crate::status::{Asking, Saved, Status};
use crate::status_values::{add_buffer, add_cursor, add_live, add_point, add_prompt};
use json::Writer;
use std::alloc::{AllocError, Global};

/// Room for most statuses.
const ROOM: usize = 1024;

/// The line of a status with its newline, as `status_text` of `specs/StatusText.antt` has it: an
/// object of JSON with no blanks, its members in rising order. The only refusal is out of memory.
pub fn status_line(alloc: Global, status: &Status<'_>) -> Result<String, AllocError>
    ensures text { IfOk result (λ text. string_bytes text ≡ status_text status.now) }
    // A reader of JSON finds that object in it.
    ensures reads_back { OnOk result (document (status_object status.now)
        ≡ Some (status_json status.now)) }
{
    let mut writer = Writer::new(Vec::with_capacity(alloc, ROOM)?);
    add_status(alloc, &mut writer, status)?;
    let Ok(mut line) = String::from_utf8(writer.into_inner()) else {
        unreachable!()
    };
    line.push_str("\n")?;
    Ok(line)
}

fn add_status(alloc: Global, writer: &mut Writer, status: &Status<'_>) -> Result<(), AllocError>
    ensures { OnOk result (AddsValue writer.old writer.new (status_json status.now)) }
{
    writer.begin_object()?;
    add_flag(writer, "begun", status.begun)?;
    add_buffer(writer, "buffer", &status.buffer)?;
    add_changes(alloc, writer, status.changes)?;
    add_cursor(writer, &status.cursor)?;
    add_count(writer, "keys", status.keys)?;
    add_live(writer, &status.live)?;
    add_flag(writer, "loaded", status.loaded)?;
    add_text(writer, "message", status.message)?;
    add_text(writer, "mode", name_of_asking(status.mode))?;
    add_flag(writer, "more", status.more)?;
    add_count(writer, "operations", status.operations as u64)?;
    add_places(writer, status.places)?;
    add_point(writer, &status.point)?;
    add_prompt(alloc, writer, &status.prompt)?;
    add_refusals(writer, status.refused)?;
    add_count(writer, "reports", status.reports)?;
    add_count(writer, "rows", status.rows as u64)?;
    add_text(writer, "saved", name_of_saved(status.saved))?;
    add_windows(writer, status.windows)?;
    writer.end_object()?;
    Ok(())
}

fn name_of_asking(asking: Asking) -> &'static str
    ensures { result.now ≡ asking_name asking }
{
    match asking {
        Asking::Plain => "plain",
        Asking::Prompt => "prompt",
        Asking::Search => "search",
        Asking::Query => "query",
    }
}

fn name_of_saved(saved: Saved) -> &'static str
    ensures { result.now ≡ saved_name saved }
{
    match saved {
        Saved::Unsaved => "none",
        Saved::Done => "ok",
        Saved::File => "file",
        Saved::Memory => "memory",
    }
}
