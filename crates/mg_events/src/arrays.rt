//! Members that are lists.
ghost use Rattle.std.specs.Prelude.{OnOk, codes, map};
ghost use Rattle.mg_events.specs.Objects.{array_of};
ghost use Rattle.mg_events.specs.Added.{AddsMember, AddsMembers};
ghost use Rattle.mg_events.specs.StatusText.{changes_members, place_json, refused_json, window_json};

use crate::status::{PlaceStatus, RefusedReport, WindowStatus};
use crate::status_values::{add_count_and_text, add_place, add_splice};
use json::Writer;
use rga_ops::Splice;
use std::alloc::{AllocError, Global};

/// Adds what changed in the text of the live buffer, if it is told.
pub(crate) fn add_changes(
    alloc: Global,
    writer: &mut Writer,
    changes: Option<&[Splice]>,
) -> Result<(), AllocError>
    ensures { OnOk result (AddsMembers writer.old writer.new (changes_members changes.entry)) }
{
    let Some(splices) = changes else {
        return Ok(());
    };
    writer.key("changes")?;
    writer.begin_array()?;
    for splice in splices {
        add_splice(alloc, writer, splice)?;
    }
    writer.end_array()?;
    Ok(())
}

/// Adds the places that are shown.
pub(crate) fn add_places(writer: &mut Writer, places: &[PlaceStatus]) -> Result<(), AllocError>
    ensures { OnOk result (AddsMember writer.old writer.new
        (codes "places") (array_of (map place_json places.now))) }
{
    writer.key("places")?;
    writer.begin_array()?;
    for place in places {
        add_place(writer, place)?;
    }
    writer.end_array()?;
    Ok(())
}

/// Adds the reports that were not taken.
pub(crate) fn add_refusals(writer: &mut Writer, reports: &[RefusedReport]) -> Result<(), AllocError>
    ensures { OnOk result (AddsMember writer.old writer.new
        (codes "refused") (array_of (map refused_json reports.now))) }
{
    writer.key("refused")?;
    writer.begin_array()?;
    for report in reports {
        add_count_and_text(writer, report.number, report.fault)?;
    }
    writer.end_array()?;
    Ok(())
}

/// Adds the windows.
pub(crate) fn add_windows(
    writer: &mut Writer,
    windows: &[WindowStatus<'_>],
) -> Result<(), AllocError>
    ensures { OnOk result (AddsMember writer.old writer.new
        (codes "windows") (array_of (map window_json windows.now))) }
{
    writer.key("windows")?;
    writer.begin_array()?;
    for window in windows {
        add_count_and_text(writer, window.rows as u64, window.name)?;
    }
    writer.end_array()?;
    Ok(())
}
