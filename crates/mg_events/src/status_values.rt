//! Members and values that are told of a buffer, a prompt, a splice, a place, a report and a window.
ghost use Rattle.std.specs.Prelude.{OnOk, codes};
ghost use Rattle.mg_events.specs.Objects.{value_or_null};
ghost use Rattle.mg_events.specs.Added.{AddsMember, AddsValue};
ghost use Rattle.mg_events.specs.StatusText.{buffer_json, count_and_text, place_json, point_json};
ghost use Rattle.mg_events.specs.StatusText.{position_json, prompt_json, splice_json};

use crate::members::{
    add_characters, add_count, add_counts, add_flag, add_named_counts, add_null, add_text,
};
use crate::status::{BufferStatus, PlaceStatus, PointStatus, PromptStatus};
use json::Writer;
use mg_screen::Position;
use rga_ops::Splice;
use std::alloc::{AllocError, Global};

/// Adds a member that is a buffer.
pub(crate) fn add_buffer(
    writer: &mut Writer,
    name: &str,
    buffer: &BufferStatus<'_>,
) -> Result<(), AllocError>
    ensures { OnOk result (AddsMember writer.old writer.new name.now (buffer_json buffer.now)) }
{
    writer.key(name)?;
    writer.begin_object()?;
    add_flag(writer, "changed", buffer.changed)?;
    add_text(writer, "name", buffer.name)?;
    add_count(writer, "unsaved", buffer.unsaved as u64)?;
    add_count(writer, "waiting", buffer.waiting as u64)?;
    writer.end_object()?;
    Ok(())
}

/// Adds the live buffer, or `null` if there is none.
pub(crate) fn add_live(
    writer: &mut Writer,
    live: &Option<BufferStatus<'_>>,
) -> Result<(), AllocError>
    ensures { OnOk result
        (AddsMember writer.old writer.new (codes "live") (value_or_null buffer_json live.now)) }
{
    match live {
        Some(buffer) => add_buffer(writer, "live", buffer),
        None => add_null(writer, "live"),
    }
}

/// Adds the cell of the cursor, or `null`.
#[tactic(auto, unfolding(crate::specs::StatusText::position_json))]
pub(crate) fn add_cursor(writer: &mut Writer, cursor: &Option<Position>) -> Result<(), AllocError>
    ensures { OnOk result (AddsMember writer.old writer.new
        (codes "cursor") (value_or_null position_json cursor.now)) }
{
    match cursor {
        Some(at) => add_named_counts(writer, "cursor", &[at.row as u64, at.column as u64]),
        None => add_null(writer, "cursor"),
    }
}

/// Adds the open prompt, or `null`.
pub(crate) fn add_prompt(
    alloc: Global,
    writer: &mut Writer,
    prompt: &Option<PromptStatus<'_>>,
) -> Result<(), AllocError>
    ensures { OnOk result (AddsMember writer.old writer.new
        (codes "prompt") (value_or_null prompt_json prompt.now)) }
{
    let Some(prompt) = prompt else {
        return add_null(writer, "prompt");
    };
    writer.key("prompt")?;
    writer.begin_object()?;
    add_characters(alloc, writer, "answer", prompt.answer)?;
    add_text(writer, "label", prompt.label)?;
    writer.end_object()?;
    Ok(())
}

/// Adds where point stands.
#[tactic(auto, unfolding(crate::specs::StatusText::point_json))]
pub(crate) fn add_point(writer: &mut Writer, point: &PointStatus) -> Result<(), AllocError>
    ensures { OnOk result
        (AddsMember writer.old writer.new (codes "point") (point_json point.now)) }
{
    let counter = point.element.counter();
    let replica = u64::from(point.element.replica());
    add_named_counts(
        writer,
        "point",
        &[point.line as u64, point.column as u64, counter, replica],
    )
}

/// Adds a splice.
pub(crate) fn add_splice(
    alloc: Global,
    writer: &mut Writer,
    splice: &Splice,
) -> Result<(), AllocError>
    ensures { OnOk result (AddsValue writer.old writer.new (splice_json splice.now)) }
{
    writer.begin_object()?;
    add_count(writer, "hi", splice.hi as u64)?;
    add_count(writer, "lo", splice.lo as u64)?;
    add_characters(alloc, writer, "text", splice.put.as_slice())?;
    writer.end_object()?;
    Ok(())
}

/// Adds a place and its cell.
#[tactic(auto, unfolding(crate::specs::StatusText::place_json))]
pub(crate) fn add_place(writer: &mut Writer, place: &PlaceStatus) -> Result<(), AllocError>
    ensures { OnOk result (AddsValue writer.old writer.new (place_json place.now)) }
{
    let counter = place.element.counter();
    let replica = u64::from(place.element.replica());
    add_counts(
        writer,
        &[counter, replica, place.row as u64, place.column as u64],
    )
}

/// Adds a number and a text between brackets.
pub(crate) fn add_count_and_text(
    writer: &mut Writer,
    value: u64,
    text: &str,
) -> Result<(), AllocError>
    ensures { OnOk result (AddsValue writer.old writer.new (count_and_text value text.now)) }
{
    writer.begin_array()?;
    writer.u64(value)?;
    writer.string(text)?;
    writer.end_array()?;
    Ok(())
}
