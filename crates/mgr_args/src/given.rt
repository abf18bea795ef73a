//! What jobs were given.
ghost use Rattle.std.specs.Prelude.{◌≡◌, None, IfOk, IfSome, codes, map, string_bytes};
ghost use Rattle.clap.specs.Matches.{found_of};
ghost use Rattle.clap.specs.Walk.{rows_of, texts};
ghost use Rattle.mg_screen.specs.Settings.{Values};
ghost use Rattle.mgr_args.specs.Edit.{GivesOptions, GivesSettings};
ghost use Rattle.mgr_args.specs.Given.{GivesFlag, GivesLogs, GivesMerging, GivesNameIf, GivesNote};
ghost use Rattle.mgr_args.specs.Given.{GivesNoteNameIf, GivesNumberIf, GivesShown};

use clap::ArgMatches;
use mg_screen::{Settings, Values};
use rga_store::MAX_LIMIT;
use std::alloc::{AllocError, Global};

/// The settings that clap's matches give; none if they are not allowed, as with no name, or with
/// flags of which one excludes the other.
pub(crate) fn settings_of(
    alloc: Global,
    found: &ArgMatches<'_>,
) -> Result<Option<Settings>, AllocError>
    ensures { IfOk result (GivesSettings (rows_of (found_of found.now))) }
{
    let Some(name) = found.get_str("name") else {
        return Ok(None);
    };
    let Some(values) = values_of(String::from_str(alloc, name)?, found) else {
        return Ok(None);
    };
    Ok(Settings::new(values))
}

/// A note, and whether the flag of its job was given: `--dels` of `compact`, `--json` of `log`,
/// `--lines` of `who`.
#[derive(Drop)]
pub struct Note {
    pub name: String,
    pub flag: bool,
}

/// The name that clap's matches give; none if it is empty.
pub(crate) fn name_of(alloc: Global, found: &ArgMatches<'_>) -> Result<Option<String>, AllocError>
    ensures { IfOk result (GivesNameIf (rows_of (found_of found.now))) }
{
    let Some(name) = found.get_str("name") else {
        return Ok(None);
    };
    if name.is_empty() {
        return Ok(None);
    }
    Ok(Some(String::from_str(alloc, name)?))
}

/// The same; none too if it is `-`, which is standard input.
pub(crate) fn note_name_of(
    alloc: Global,
    found: &ArgMatches<'_>,
) -> Result<Option<String>, AllocError>
    ensures { IfOk result (GivesNoteNameIf (rows_of (found_of found.now))) }
{
    let Some(name) = name_of(alloc, found)? else {
        return Ok(None);
    };
    if name.as_str() == "-" {
        return Ok(None);
    }
    Ok(Some(name))
}

/// What clap's matches give to a job of one note and this flag; none if the name is empty.
pub(crate) fn note_of(
    alloc: Global,
    found: &ArgMatches<'_>,
    flag: &str,
) -> Result<Option<Note>, AllocError>
    ensures { IfOk result (GivesNote flag.now (rows_of (found_of found.now))) }
{
    let Some(name) = name_of(alloc, found)? else {
        return Ok(None);
    };
    Ok(Some(Note {
        name,
        flag: has_flag(found, flag),
    }))
}

/// A note, the logs to be merged into it, and whether they may be those of another note.
#[derive(Drop)]
pub struct Merging {
    pub name: String,
    pub logs: Vec<String>,
    pub adopt: bool,
}

/// What clap's matches give to merge; none if the name is empty.
pub(crate) fn merging_of(
    alloc: Global,
    found: &ArgMatches<'_>,
) -> Result<Option<Merging>, AllocError>
    ensures { IfOk result (GivesMerging (rows_of (found_of found.now))) }
{
    let Some(name) = name_of(alloc, found)? else {
        return Ok(None);
    };
    Ok(Some(Merging {
        name,
        logs: logs_of(alloc, found)?,
        adopt: has_flag(found, "adopt"),
    }))
}

/// What is to be shown.
#[derive(Drop)]
pub enum Shown {
    /// Standard input.
    Input,
    /// The log of a note; with a number, so many lines of it.
    Front(String, Option<u64>),
}

/// What clap's matches give to show; none if the name is empty, and if there is a number without a
/// name.
pub(crate) fn shown_of(alloc: Global, found: &ArgMatches<'_>) -> Result<Option<Shown>, AllocError>
    ensures { IfOk result (GivesShown (rows_of (found_of found.now))) }
{
    let lines = lines(found);
    let Some(name) = found.get_str("name") else {
        return match lines {
            Some(_) => Ok(None),
            None => Ok(Some(Shown::Input)),
        };
    };
    if name.is_empty() {
        return Ok(None);
    }
    let name = String::from_str(alloc, name)?;
    Ok(Some(Shown::Front(name, lines)))
}

/// How many lines are to be shown.
fn lines(found: &ArgMatches<'_>) -> Option<u64>
    ensures { GivesNumberIf 64 (rows_of (found_of found.now)) (codes "lines") result }
{
    found.get_one::<u64>("lines")
}

/// The paths that clap's matches give.
pub(crate) fn logs_of(alloc: Global, found: &ArgMatches<'_>) -> Result<Vec<String>, AllocError>
    ensures { IfOk result (λ logs. GivesLogs (rows_of (found_of found.now)) logs.items) }
{
    match found.get_raw("logs") {
        Some(logs) => strings_of(alloc, logs),
        None => Ok(Vec::new(alloc)),
    }
}

fn strings_of(alloc: Global, words: &[&str]) -> Result<Vec<String>, AllocError>
    ensures { IfOk result (λ strings. map string_bytes strings.items ≡ texts words.now) }
{
    let mut strings = Vec::new(alloc);
    for word in words {
        strings.push(String::from_str(alloc, word)?)?;
    }
    Ok(strings)
}

/// What stands there, under a name; none where a number is no number.
fn values_of(name: String, found: &ArgMatches<'_>) -> Option<Values>
    ensures name { IfSome result (λ v. v.name ≡ string_bytes name) }
    ensures options { IfSome result (GivesOptions (rows_of (found_of found.now))) }
    ensures none { result ≡ None →
        (v : Values) → GivesOptions (rows_of (found_of found.now)) v → ⊥ }
{
    Some(Values {
        replica: number(found, "replica")?,
        rows: usize::from(number(found, "rows")?),
        columns: usize::from(number(found, "cols")?),
        fill: number(found, "fill")?,
        port: number(found, "port"),
        trace: has_flag(found, "trace"),
        live: has_flag(found, "live"),
        changes: has_flag(found, "changes"),
        runs: has_flag(found, "runs"),
        brief: has_flag(found, "brief"),
        strict: has_flag(found, "strict"),
        limit: MAX_LIMIT,
        name,
    })
}

/// Whether the flag of an id stands there.
pub(crate) fn has_flag(found: &ArgMatches<'_>, id: &str) -> bool
    ensures { GivesFlag (rows_of (found_of found.now)) id.now result }
{
    found.get_one::<bool>(id).unwrap_or(false)
}

/// The number under an id.
fn number(found: &ArgMatches<'_>, id: &str) -> Option<u16>
    ensures { GivesNumberIf 16 (rows_of (found_of found.now)) id.now result }
{
    found.get_one::<u16>(id)
}
