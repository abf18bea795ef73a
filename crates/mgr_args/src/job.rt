//! The words after the program's name.
ghost use Rattle.std.specs.Prelude.{◌≡◌, IfErr, IfOk, Some, drop, map, string_bytes};
ghost use Rattle.clap.specs.Matches.{found_of};
ghost use Rattle.clap.specs.Values.{kind_of};
ghost use Rattle.clap.specs.Walk.{rows_of, texts};
ghost use Rattle.mgr_args.specs.CommandLine.{mistake, topic_of, wish_of, with_help_flag};
ghost use Rattle.mgr_args.specs.Job.{FoundGives, GivesJob, IsFaultOf, IsFaultOfKind, IsJobOf};
ghost use Rattle.mgr_args.specs.Job.{IsNotChosen, job_status_of, rows_behind};
ghost use Rattle.mgr_args.specs.Memory.{JobMemory as Memory};

use crate::command::command;
use crate::given::{
    Merging, Note, Shown, has_flag, logs_of, merging_of, name_of, note_name_of, note_of,
    settings_of, shown_of,
};
use clap::error::ErrorKind;
use clap::{ArgMatches, Error};
use mg_screen::Settings;
use rga_ops::OutOfMemory;
use std::alloc::{AllocError, Global};

/// What the program is to do.
#[derive(Drop)]
pub enum Job {
    /// A log in, the text that it makes out.
    Show(Shown),
    /// Keys in, frames out.
    Edit(Settings),
    /// A log, written anew; with `--dels`, deletions in runs too.
    Compact(Note),
    /// Logs in, their join out.
    Join(Vec<String>),
    /// What stands in a log; with `--json` as one object.
    Log(Note),
    /// Who wrote a text; with `--lines` by its lines.
    Who(Note),
    /// What a log has, in short, out.
    Claims(String),
    /// What another log has, in short, in, the operations that it lacks out.
    Missing(String),
    /// Logs, taken into a note; with `--adopt` those of another note too.
    Merge(Merging),
    /// A log that is refused or torn, made one that is not.
    Mend(String),
}

/// What help is on.
#[derive(Clone, Copy, Debug)]
pub enum Topic {
    /// The whole program.
    Program,
    Show,
    Edit,
    Compact,
    Join,
    Log,
    Who,
    Claims,
    Missing,
    Merge,
    Mend,
}

/// Why there is no job.
#[derive(Debug, Drop, thiserror::Error)]
pub enum JobFault {
    /// The words ask for help on a topic; this is its text.
    #[error("{1}")]
    Help(Topic, Error),
    /// The words ask for the version; this text gives it.
    #[error(transparent)]
    Version(Error),
    /// The words are a wrong command line; this text says why.
    #[error(transparent)]
    Usage(Error),
    /// A growth of memory was refused.
    #[error("out of memory")]
    Memory(OutOfMemory),
}

impl From<AllocError> for JobFault {
    ghost from_gives = { λ _ fault. fault ≡ Memory };

    fn from(refused: AllocError) -> JobFault {
        JobFault::Memory(OutOfMemory::from(refused))
    }
}

/// The exit status: 0 where help or the version was asked for, 2 for a wrong command line, 4 for
/// memory.
pub fn job_status(fault: &JobFault) -> u8
    ensures { result ≡ job_status_of fault.now }
{
    match fault {
        JobFault::Help(_, _) | JobFault::Version(_) => 0,
        JobFault::Usage(_) => 2,
        JobFault::Memory(_) => 4,
    }
}

/// The job that the words ask for, of which the first is the program's name.
///
/// The first word names the job, and clap reads those after it. `show` takes a name or none and
/// `--lines N` or not, `edit` a name, `--replica N` and the other options, `compact`, `log` and
/// `who` a name and a flag or not, `join` paths, `claims`, `missing` and `mend` a name, and `merge`
/// a name, paths or none, and `--adopt` or not. No name may be empty, and that of `missing` not `-`.
/// `--trace` does not go with `--live`, and `--changes` goes with it alone.
/// `Help` is on the program if the first word is `--help`, or `-h` with anything after it, and on a
/// job if clap finds it after its word.
/// `Version` if the first word is `--version`, or `-V` with anything after it. `help` in front is
/// `--help` at the end: `mgr help show` asks for what `mgr show --help` does. `Usage` at any other
/// command line, and `Memory`.
pub fn job_of(alloc: Global, words: &[String]) -> Result<Job, JobFault>
    ensures job { IfOk result (IsJobOf (wish_of (map string_bytes words.now))) }
    ensures fault { IfErr result (IsFaultOf (wish_of (map string_bytes words.now))) }
{
    let words = with_help_flag(alloc, words)?;
    let command = command(alloc)?;
    let topic = topic_of(&words);
    match command.try_get_matches_from(words.as_slice()) {
        Ok(matches) => chosen(alloc, topic, &matches),
        Err(error) => Err(fault_of(error, topic)),
    }
}

/// The job that matches ask for, if the words are such that help would be on this topic.
fn chosen(alloc: Global, topic: Topic, matches: &ArgMatches<'_>) -> Result<Job, JobFault>
    ensures job { IfOk result (λ job. FoundGives topic (rows_behind matches.now) (Some job)) }
    ensures fault { IfErr result (IsNotChosen topic (rows_behind matches.now)) }
{
    let Some((_, found)) = matches.subcommand() else {
        return Err(mistake(alloc, "nothing is to be done"));
    };
    match job_given(alloc, topic, found)? {
        Some(job) => Ok(job),
        None => Err(mistake(alloc, reason_of(topic, found))),
    }
}

/// Why clap's matches give no job of a topic.
fn reason_of(topic: Topic, found: &ArgMatches<'_>) -> &'static str {
    match topic {
        Topic::Edit if has_flag(found, "live") && has_flag(found, "trace") => {
            "the argument '--trace' cannot be used with '--live'"
        }
        Topic::Edit if has_flag(found, "changes") && !has_flag(found, "live") => {
            "the argument '--changes' cannot be used without '--live'"
        }
        Topic::Missing => "the name is empty or -: standard input has the claims",
        _ => "the name is missing or empty",
    }
}

/// The job of a topic that clap's matches give; none if the name is missing or empty, or is `-` for
/// `missing`, and on the program.
fn job_given(alloc: Global, topic: Topic, found: &ArgMatches<'_>) -> Result<Option<Job>, AllocError>
    ensures { IfOk result (GivesJob topic (rows_of (found_of found.now))) }
{
    match topic {
        Topic::Program => Ok(None),
        Topic::Show => Ok(shown_of(alloc, found)?.map(Job::Show)),
        Topic::Edit => Ok(settings_of(alloc, found)?.map(Job::Edit)),
        Topic::Compact => Ok(note_of(alloc, found, "dels")?.map(Job::Compact)),
        Topic::Join => Ok(Some(Job::Join(logs_of(alloc, found)?))),
        Topic::Log => Ok(note_of(alloc, found, "json")?.map(Job::Log)),
        Topic::Who => Ok(note_of(alloc, found, "lines")?.map(Job::Who)),
        Topic::Claims => Ok(name_of(alloc, found)?.map(Job::Claims)),
        Topic::Missing => Ok(note_name_of(alloc, found)?.map(Job::Missing)),
        Topic::Merge => Ok(merging_of(alloc, found)?.map(Job::Merge)),
        Topic::Mend => Ok(name_of(alloc, found)?.map(Job::Mend)),
    }
}

/// The words as clap is given them: for `help` in front, `--help` stands behind.
fn with_help_flag<'a>(alloc: Global, words: &'a [String]) -> Result<Vec<&'a str>, AllocError>
    ensures { IfOk result (λ given. drop 1 (texts given.items)
        ≡ with_help_flag (drop 1 (map string_bytes words.now))) }
{
    let mut given = texts_of(alloc, words)?;
    if given.get(1) != Some(&"help") {
        return Ok(given);
    }
    given.remove(1);
    given.push("--help")?;
    Ok(given)
}

fn texts_of<'a>(alloc: Global, words: &'a [String]) -> Result<Vec<&'a str>, AllocError>
    ensures { IfOk result (λ given. texts given.items ≡ map string_bytes words.now) }
{
    let mut given = Vec::new(alloc);
    for word in words {
        given.push(word.as_str())?;
    }
    Ok(given)
}

/// What help is on, where these words ask for it.
fn topic_of(words: &[&str]) -> Topic
    ensures { result ≡ topic_of (drop 1 (texts words.now)) }
{
    let first = words.get(1);
    if first == Some(&"show") {
        return Topic::Show;
    }
    if first == Some(&"edit") {
        return Topic::Edit;
    }
    if first == Some(&"compact") {
        return Topic::Compact;
    }
    if first == Some(&"join") {
        return Topic::Join;
    }
    if first == Some(&"log") {
        return Topic::Log;
    }
    if first == Some(&"who") {
        return Topic::Who;
    }
    if first == Some(&"claims") {
        return Topic::Claims;
    }
    if first == Some(&"missing") {
        return Topic::Missing;
    }
    if first == Some(&"merge") {
        return Topic::Merge;
    }
    if first == Some(&"mend") {
        return Topic::Mend;
    }
    Topic::Program
}

fn fault_of(error: Error, topic: Topic) -> JobFault
    ensures { IsFaultOfKind topic (kind_of error) result }
{
    match error.kind() {
        ErrorKind::DisplayHelp => JobFault::Help(topic, error),
        ErrorKind::DisplayVersion => JobFault::Version(error),
        // clap keeps no refusal, but only that there was one.
        ErrorKind::OutOfMemory => JobFault::from(AllocError),
        _ => JobFault::Usage(error),
    }
}

/// `Usage` with a reason of the program's own, or `Memory`.
pub(crate) fn mistake(alloc: Global, reason: &str) -> JobFault
    ensures { IsFaultOf mistake result }
{
    let mut command = match command(alloc) {
        Ok(command) => command,
        Err(refused) => return JobFault::from(refused),
    };
    match command.error(ErrorKind::InvalidValue, reason) {
        Ok(error) => JobFault::Usage(error),
        Err(refused) => JobFault::from(refused),
    }
}
