//! The job of the command line, done, and what the shell is told of it.
ghost use Rattle.std.specs.Prelude.{◌≡◌, ◌≤◌, [], ◌∷◌, ◌++◌, codes, map, slice_get, string_bytes};
ghost use Rattle.std.specs.Prelude.{Err, IfErr, MatchResult, option_map};
ghost use Rattle.rga_exchange.specs.Counting.{CountsAs, StaysFlushed, one_more};
ghost use Rattle.mg_session.specs.Running.{devices};
ghost use Rattle.mg_session.specs.declared.fault.SessionFault.TheVariants as session;
ghost use Rattle.mgr.specs.Report.{answer_status, join_message, join_status, merge_status};
ghost use Rattle.mgr.specs.Report.{missing_message, missing_status, named_text, report_text, show_status};
ghost use Rattle.mgr.specs.Report.{session_message, session_status, show_message, source_message, torn_message};
ghost use Rattle.mgr_show.specs.Note.{log_name, log_source};
ghost use Rattle.mgr.specs.Telling.{TellsMore, answer_telling, line, merge_telling, torn_telling};
ghost use Rattle.mgr.specs.Status as status;
ghost use Rattle.mgr.specs.Peers as spec;

use crate::printed::{Count, Mending};
use crate::report::{Message, Report, refused};
use crate::sources::PathFiles;
use crate::streams::hold_closed;
use crate::tell::Tell;
use mg_files::Port;
use mg_live::run_live;
use mg_screen::Settings;
use mg_session::{SessionFault, run_keys};
use mgr_args::{Job, JobFault, Merging, Note, Shown, job_of, job_status, words};
use mgr_mend::{LeftOut, MergeFault, Torn, compact_note, mend_note, merge_logs, put_note};
use mgr_port::{FilePort, Logs};
use mgr_show::{
    JoinFault, MissingFault, ShowFault, Sources, join_logs, show_note, show_ops, write_authors,
    write_claims, write_missing, write_numbers, write_text,
};
use rga_exchange::Counted;
use rga_flat::FlatStore;
use std::alloc::Global;
use std::fmt::Display;
use std::fs::File;
use std::io::{self, Read, Write};
use std::net::Net;
use std::rt::{Env, Files};

/// Why a merge of nothing new leaves a text as it is.
const TEXT_STAYS: &str =
    "the text stays: it is not the log's, but another program's or an older one (remove it, and mgr merge puts it anew)";

/// Does the job that the command line asks for, by standard input and output, by files and by
/// sockets of this machine, and answers the exit status that `do_job` does. No file takes the place of
/// a standard stream that is closed.
pub fn run<R: Env + Files<File = File> + Net + AllocGlobal + Input + Print + Eprint>(rt: &R) -> u8
    ensures { result ≤ 4 }
{
    let _closed = hold_closed(rt);
    let job = words(rt).and_then(|words| job_of(rt.alloc(), &words));
    let mut reader = Counted::new(rt.reader());
    let mut writer = Counted::new(io::writer(rt));
    let mut port = FilePort::new(rt, port_number(&job));
    let mut sources = PathFiles::new(rt, reads_streams(&job));
    let mut errors = rt;
    do_job(
        rt.alloc(),
        &job,
        &mut reader,
        &mut writer,
        &mut port,
        &mut sources,
        &mut errors,
    )
}

/// The number of the port at which a job meets peers, where the command line gives one.
fn port_number(job: &Result<Job, JobFault>) -> Option<u16>
    ensures { result ≡ spec.port_number job.now }
{
    match job {
        Ok(Job::Edit(settings)) => settings.values().port,
        _ => None,
    }
}

/// Whether the files that a job reads by their names may be pipes and devices.
fn reads_streams(job: &Result<Job, JobFault>) -> bool {
    match job {
        Ok(Job::Join(_) | Job::Claims(_) | Job::Missing(_) | Job::Merge(_)) => true,
        _ => false,
    }
}

/// Does a job, or tells why there is none, and answers the exit status: 0 done, 1 the input is
/// refused, 2 a wrong command line, 3 a device failed, 4 memory was refused. What is told is the one
/// line of the fault, or the text of a wrong command line, and nothing where the status is 0.
/// `compact` leaves the log as it was where the status is not 0, but at a device that fails once the
/// new one has its name. `merge` may have been done where the status is 3 or 4: the count of new
/// operations could not be printed. It tells each log of which a last line was left out, too. `mend`
/// may have mended the log where the status is not 0: then the text could not be put, or what was
/// left out not be printed, each of which is told.
pub fn do_job<R: Read, W: Write, P: Port + Logs, S: Sources, T: Tell>(
    alloc: Global,
    job: &Result<Job, JobFault>,
    reader: &mut Counted<R>,
    writer: &mut Counted<W>,
    port: &mut P,
    sources: &mut S,
    errors: &mut T,
) -> u8
    ensures status { MatchResult job.now
        (λ job. status.IsStatusOfJob
        (status.known R.remaining W.contents P.calls P.Port.failures P.standing P.refused
        P.Logs.failures)
        S.contents S.failures job result
        (status.outside reader.old writer.old port.old sources.old (T.told errors.old))
        (status.outside reader.new writer.new port.new sources.new (T.told errors.new)))
        (λ fault. status.IsStatusOf W.contents fault result writer.old writer.new
        (T.told errors.old) (T.told errors.new)) }
    ensures idle { IfErr job.now (λ _. (reader.new ≡ reader.old) × (port.new ≡ port.old)
        × (sources.new ≡ sources.old)) }
    ensures bound { result ≤ 4 }
{
    match job {
        Ok(Job::Show(Shown::Input)) => told_of_show(errors, show_ops(alloc, reader, writer)),
        Ok(Job::Show(Shown::Front(name, lines))) => {
            let answer = show_note(alloc, sources, name, *lines, writer);
            told_of_note(errors, name, answer)
        }
        Ok(Job::Edit(settings)) => {
            let answer = run_session(alloc, settings, reader, writer, port);
            told_of_session(errors, answer)
        }
        Ok(Job::Compact(note)) => compact(alloc, note, port, errors),
        Ok(Job::Join(names)) => {
            told_of_logs(errors, names, join_logs(alloc, sources, names, writer))
        }
        Ok(Job::Log(note)) => {
            let answer = write_numbers(alloc, sources, &note.name, note.flag, writer);
            told_of_note(errors, &note.name, answer)
        }
        Ok(Job::Who(note)) => {
            let answer = write_authors(alloc, sources, &note.name, note.flag, writer);
            told_of_note(errors, &note.name, answer)
        }
        Ok(Job::Claims(name)) => {
            told_of_source(errors, name, write_claims(alloc, sources, name, writer))
        }
        Ok(Job::Missing(name)) => {
            let answer = write_missing(alloc, sources, name, "-", writer);
            told_of_missing(errors, name, answer)
        }
        Ok(Job::Mend(name)) => mend(alloc, name.as_str(), port, writer, errors),
        Ok(Job::Merge(merging)) => merge(alloc, merging, port, sources, writer, errors),
        Err(fault) => refuse(alloc, fault, writer, errors),
    }
}

/// Runs a session of keys, or a live one.
fn run_session<R: Read, W: Write, P: Port>(
    alloc: Global,
    settings: &Settings,
    reader: &mut Counted<R>,
    writer: &mut Counted<W>,
    port: &mut P,
) -> Result<(), SessionFault>
    ensures ran { status.IsEdited R.remaining W.contents settings.now result
        (P.failures port.old) (P.failures port.new)
        (devices reader.old writer.old (P.calls port.old))
        (devices reader.new writer.new (P.calls port.new)) }
    ensures flushed { StaysFlushed session.Screen result writer.old writer.new }
    ensures keys { CountsAs session.Keys result reader.old reader.new }
    ensures screen { CountsAs session.Screen result writer.old writer.new }
    ensures file { result ≡ Err session.File → P.failures port.new ≡ one_more (P.failures port.old) }
{
    if settings.values().live {
        run_live::<FlatStore, _, _, _>(alloc, reader, writer, port, settings)
    } else {
        run_keys::<FlatStore, _, _, _>(alloc, reader, writer, port, settings)
    }
}

/// Tells of the fault of a join, if there is one, and answers its exit status.
fn told_of_logs<T: Tell>(errors: &mut T, names: &[String], answer: Result<(), JoinFault>) -> u8
    ensures status { result ≡ answer_status join_status answer }
    ensures told { TellsMore (T.told errors.old) (T.told errors.new)
        (answer_telling (join_message (map string_bytes names.now)) answer) }
{
    match answer {
        Ok(()) => 0,
        Err(JoinFault::Log(index, fault)) => {
            told_of_log(errors, names.get(index), Report::of_show(&fault))
        }
        Err(JoinFault::Far) => {
            told(
                errors,
                refused(Message::Note("counter far above the number of identifiers")),
            )
        }
        Err(JoinFault::Write) => told(errors, Report::DEVICE),
        Err(JoinFault::Memory(_)) => told(errors, Report::MEMORY),
    }
}

/// Tells of the fault of a log, with its name in front, and answers its exit status.
fn told_of_log<T: Tell>(errors: &mut T, name: Option<&String>, report: Report) -> u8
    ensures status { result ≡ report.status }
    ensures told { TellsMore (T.told errors.old) (T.told errors.new)
        (line (named_text (option_map (λ n. string_bytes n.now) name.entry)
        (report_text report.message)) ∷ []) }
{
    match name {
        Some(name) => errors.tell_of(name.as_str(), report),
        None => errors.tell(report),
    }
    report.status
}

/// Tells of the fault of what a note has and claims lack, if there is one, and answers its exit
/// status.
fn told_of_missing<T: Tell>(errors: &mut T, name: &str, answer: Result<u64, MissingFault>) -> u8
    ensures status { result ≡ answer_status missing_status answer }
    ensures told { TellsMore (T.told errors.old) (T.told errors.new)
        (answer_telling (missing_message (log_source name.now)) answer) }
{
    match answer {
        Ok(_) => 0,
        Err(MissingFault::Head) => told(errors, refused(Message::File("claims", "no head"))),
        Err(MissingFault::Claims(fault)) => told(errors, Report::of_claims(fault)),
        Err(MissingFault::Log(fault)) => told_of_source(errors, name, Err(fault)),
        Err(MissingFault::Write) => told(errors, Report::DEVICE),
        Err(MissingFault::Memory(_)) => told(errors, Report::MEMORY),
    }
}

/// Merges logs into a note, and then prints how many of their operations were new.
fn compact<P: Logs, T: Tell>(alloc: Global, note: &Note, port: &mut P, errors: &mut T) -> u8
    ensures status { status.IsStatusOfCompact P.standing P.failures note.now result port.old port.new
        (T.told errors.old) (T.told errors.new) }
    ensures bound { result ≤ 4 }
{
    let answer = compact_note(alloc, port, note.name.as_str(), note.flag);
    told_of_show(errors, answer)
}

fn merge<P: Port, S: Sources, W: Write, T: Tell>(
    alloc: Global,
    merging: &Merging,
    port: &mut P,
    sources: &mut S,
    writer: &mut Counted<W>,
    errors: &mut T,
) -> u8
    ensures status { status.IsStatusOfMerge P.calls P.failures S.contents S.failures W.contents
        (string_bytes merging.now.name) (map string_bytes merging.now.logs.items)
        merging.now.adopt result
        (status.merge_side port.old sources.old writer.old (T.told errors.old))
        (status.merge_side port.new sources.new writer.new (T.told errors.new)) }
    ensures bound { result ≤ 4 }
{
    let name = merging.name.as_str();
    let logs = &merging.logs;
    match merge_logs::<FlatStore, _, _>(alloc, port, sources, name, logs, merging.adopt) {
        Ok(merged) => {
            tell_torn(errors, logs, &merged.torn);
            print(alloc, &Count(merged.new), writer, errors)
        }
        Err(fault) => told_of_merge(errors, name, logs, fault),
    }
}

/// Tells of each log with one of these names of which a last line was left out.
fn tell_torn<T: Tell>(errors: &mut T, names: &[String], torn: &[Torn])
    ensures { TellsMore (T.told errors.old) (T.told errors.new)
        (torn_telling (map string_bytes names.now) torn.now) }
{
    for log in torn {
        tell_torn_line(errors, names, *log);
    }
}

fn tell_torn_line<T: Tell>(errors: &mut T, names: &[String], torn: Torn)
    ensures { TellsMore (T.told errors.old) (T.told errors.new)
        (line (torn_message (map string_bytes names.now) torn) ∷ []) }
{
    let report = Report {
        status: 0,
        message: Message::Line(torn.line, "Torn: left out"),
    };
    told_of_log(errors, names.get(torn.log), report);
}

/// Mends the log of a note, puts its text, and prints what was left out of the log.
fn mend<P: Port + Logs, W: Write, T: Tell>(
    alloc: Global,
    name: &str,
    port: &mut P,
    writer: &mut Counted<W>,
    errors: &mut T,
) -> u8
    ensures status { status.IsStatusOfMend P.calls P.standing P.refused P.Port.failures
        P.Logs.failures W.contents name.now result
        (status.mend_side port.old writer.old (T.told errors.old))
        (status.mend_side port.new writer.new (T.told errors.new)) }
    ensures bound { result ≤ 4 }
{
    match mend_note(alloc, port, name) {
        Ok(left_out) => put_mended(alloc, name, left_out, port, writer, errors),
        Err(fault) => told_of_note(errors, name, Err(fault)),
    }
}

/// Puts the text of a note whose log was mended, and prints what was left out of that.
fn put_mended<P: Port, W: Write, T: Tell>(
    alloc: Global,
    name: &str,
    left_out: LeftOut,
    port: &mut P,
    writer: &mut Counted<W>,
    errors: &mut T,
) -> u8
    ensures status { status.IsStatusOfPut P.calls P.failures W.contents name.now left_out result
        (status.mend_side port.old writer.old (T.told errors.old))
        (status.mend_side port.new writer.new (T.told errors.new)) }
    ensures bound { result ≤ 4 }
{
    match put_note::<FlatStore, _>(alloc, port, name) {
        Ok(()) => print(alloc, &Mending(left_out), writer, errors),
        Err(fault) => {
            print(alloc, &Mending(left_out), writer, errors);
            told_of_merge(errors, name, &[], fault)
        }
    }
}

/// Tells of the log with this index, with its name in front, and answers the exit status.
fn told_of_named<T: Tell>(errors: &mut T, names: &[String], at: usize, report: Report) -> u8
    ensures status { result ≡ report.status }
    ensures told { TellsMore (T.told errors.old) (T.told errors.new)
        (line (named_text (slice_get (map string_bytes names.now) at)
        (report_text report.message)) ∷ []) }
{
    told_of_log(errors, names.get(at), report)
}

/// Tells of the fault of a merge into the note of a name, after each log of which a last line was
/// left out, and answers its exit status.
fn told_of_merge<T: Tell>(errors: &mut T, name: &str, logs: &[String], fault: MergeFault) -> u8
    ensures status { result ≡ merge_status fault }
    ensures told { TellsMore (T.told errors.old) (T.told errors.new)
        (merge_telling name.now (map string_bytes logs.now) fault) }
{
    match fault {
        MergeFault::NoLog => told_of(errors, name, refused(Message::Note("text without a log"))),
        MergeFault::Load(fault) => {
            let report = Report::of_load(fault);
            errors.tell_of_note(name, report);
            report.status
        }
        MergeFault::Log(at, fault) => told_of_named(errors, logs, at, Report::of_show(&fault)),
        MergeFault::Apart(at) => {
            let report = refused(Message::Note("a log of another note, which --adopt takes"));
            told_of_named(errors, logs, at, report)
        }
        MergeFault::Far(at) => {
            let report = refused(Message::Note("counter far above the note's"));
            told_of_named(errors, logs, at, report)
        }
        MergeFault::TextStays(torn) => {
            tell_torn(errors, logs, &torn);
            told_of(errors, name, refused(Message::Note(TEXT_STAYS)))
        }
        MergeFault::File => told(errors, Report::DEVICE),
        MergeFault::Memory(_) => told(errors, Report::MEMORY),
    }
}

/// Tells of a fault of the note with this name, and answers its exit status.
fn told_of<T: Tell>(errors: &mut T, name: &str, report: Report) -> u8
    ensures status { result ≡ report.status }
    ensures told { TellsMore (T.told errors.old) (T.told errors.new)
        (line (name.now ++ (codes ": " ++ report_text report.message)) ∷ []) }
{
    errors.tell_of(name, report);
    report.status
}

fn refuse<W: Write, T: Tell>(
    alloc: Global,
    fault: &JobFault,
    writer: &mut Counted<W>,
    errors: &mut T,
) -> u8
    ensures { status.IsStatusOf W.contents fault.now result writer.old writer.new
        (T.told errors.old) (T.told errors.new) }
{
    match fault {
        JobFault::Help(_, text) | JobFault::Version(text) => print(alloc, text, writer, errors),
        JobFault::Usage(_) => {
            errors.tell_text(fault);
            job_status(fault)
        }
        JobFault::Memory(_) => told(errors, Report::MEMORY),
    }
}

/// Prints a text.
fn print<D: Display, W: Write, T: Tell>(
    alloc: Global,
    text: &D,
    writer: &mut Counted<W>,
    errors: &mut T,
) -> u8
    ensures status { status.IsStatusOfPrint W.contents (D.output text.now) result
        writer.old writer.new (T.told errors.old) (T.told errors.new) }
    ensures bound { result ≤ 4 }
{
    let Ok(text) = text.to_string(alloc) else {
        return told(errors, Report::MEMORY);
    };
    match write_text(text.as_str(), writer) {
        Ok(()) => 0,
        Err(fault) => told(errors, Report::of_show(&fault)),
    }
}

/// Tells of the fault of a job that reads the log of a note, if there is one, and answers its exit
/// status.
fn told_of_note<T: Tell>(errors: &mut T, name: &str, answer: Result<(), ShowFault>) -> u8
    ensures status { result ≡ answer_status show_status answer }
    ensures told { TellsMore (T.told errors.old) (T.told errors.new)
        (answer_telling (source_message (log_name name.now)) answer) }
{
    match answer {
        Ok(()) => 0,
        Err(fault) => {
            let report = Report::of_show(&fault);
            match fault {
                ShowFault::Write | ShowFault::Memory(_) => errors.tell(report),
                _ => errors.tell_of_note(name, report),
            }
            report.status
        }
    }
}

/// The same, where `-` is read as it is.
#[tactic(auto, unfolding(mgr_show::specs::Note::log_source))]
fn told_of_source<T: Tell>(errors: &mut T, name: &str, answer: Result<(), ShowFault>) -> u8
    ensures status { result ≡ answer_status show_status answer }
    ensures told { TellsMore (T.told errors.old) (T.told errors.new)
        (answer_telling (source_message (log_source name.now)) answer) }
{
    if name != "-" {
        return told_of_note(errors, name, answer);
    }
    match answer {
        Ok(()) => 0,
        Err(ShowFault::Write) => told(errors, Report::DEVICE),
        Err(ShowFault::Memory(_)) => told(errors, Report::MEMORY),
        Err(fault) => told_of(errors, name, Report::of_show(&fault)),
    }
}

/// Tells of the fault of a job that shows or compacts a log, if there is one, and answers its exit
/// status.
fn told_of_show<T: Tell>(errors: &mut T, answer: Result<(), ShowFault>) -> u8
    ensures status { result ≡ answer_status show_status answer }
    ensures told { TellsMore (T.told errors.old) (T.told errors.new)
        (answer_telling show_message answer) }
{
    match answer {
        Ok(()) => 0,
        Err(fault) => told(errors, Report::of_show(&fault)),
    }
}

/// Tells of the fault of a session, if there is one, and answers its exit status.
fn told_of_session<T: Tell>(errors: &mut T, answer: Result<(), SessionFault>) -> u8
    ensures status { result ≡ answer_status session_status answer }
    ensures told { TellsMore (T.told errors.old) (T.told errors.new)
        (answer_telling session_message answer) }
{
    match answer {
        Ok(()) => 0,
        Err(fault) => told(errors, Report::of_session(&fault)),
    }
}

/// Tells of a fault, and answers its exit status.
fn told<T: Tell>(errors: &mut T, report: Report) -> u8
    ensures status { result ≡ report.status }
    ensures told { TellsMore (T.told errors.old) (T.told errors.new)
        (line (report_text report.message) ∷ []) }
{
    errors.tell(report);
    report.status
}
