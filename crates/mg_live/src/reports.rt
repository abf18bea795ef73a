//! What reports say is done.
ghost use Rattle.std.specs.Prelude.{◌≡◌, ◌≢◌, Err};
ghost use Rattle.mg_events.specs.Reports.{HasSoundRun};
ghost use Rattle.mg_live.specs.Reports as spec;
ghost use Rattle.mg_live.specs.Told as told;

use crate::changing::Reach;
use crate::fault::ReportFault;
use crate::live::Live;
use crate::others::{take_list, take_one};
use crate::pieces::{paste, splice};
use mg_editor::Editor;
use mg_events::{LineFault, Report, read_report};
use mg_screen::{MAX_COLUMNS, MAX_ROWS, MIN_COLUMNS, MIN_ROWS};
use mg_session::Course;
use rga_ops::{Op, OutOfMemory};
use rga_store::TextStore;

/// The report that was counted last is refused. The session ends where there is no memory to note
/// it.
pub(crate) fn refuse(live: &mut Live, fault: ReportFault, course: Course) -> Course
    ensures { spec.RefusesReport fault course live.old live.new result }
{
    match live.tally.refuse(fault) {
        Ok(()) => course,
        Err(refused) => Course::NoMemory(OutOfMemory::from(refused)),
    }
}

/// A report that could not be read is counted and refused.
pub(crate) fn refuse_line(live: &mut Live, fault: LineFault) -> Course
    ensures { spec.RefusesLine fault live.old live.new result }
{
    live.tally.count_report();
    refuse(live, ReportFault::Line(fault), Course::On)
}

/// The screen takes a size, brought within its limits.
fn resize<S: TextStore>(editor: &mut Editor<S>, rows: u64, columns: u64)
    ensures { editor.new ≡ spec.resized rows columns editor.old }
{
    let rows = (rows as usize).max(MIN_ROWS).min(MAX_ROWS);
    let columns = (columns as usize).max(MIN_COLUMNS).min(MAX_COLUMNS);
    editor.resize(rows, columns);
}

/// What a report says is done. Answers whether there was memory to note what that made, or why it
/// is not done.
fn take<S: TextStore>(
    live: &mut Live,
    editor: &mut Editor<S>,
    report: Report,
) -> Result<Result<(), OutOfMemory>, ReportFault>
    requires { HasSoundRun report }
    ensures { spec.Takes report editor.old live.old result editor.new live.new }
{
    match report {
        Report::One(op) => take_one(live, editor, op),
        Report::Run(run) => match run.ops(live.alloc) {
            Ok(ops) => take_list(live, editor, &ops),
            Err(memory) => Err(ReportFault::Line(LineFault::Memory(memory))),
        },
        Report::Deletions(run) => match run.ops(live.alloc) {
            Ok(ops) => take_list(live, editor, &ops),
            Err(memory) => Err(ReportFault::Line(LineFault::Memory(memory))),
        },
        Report::Paste { text, more } => paste(live, editor, text.as_slice(), more),
        Report::Splice {
            base,
            lo,
            hi,
            text,
            more,
        } => splice(live, editor, base, lo, hi, text.as_slice(), more),
        Report::Size { rows, columns } => {
            resize(editor, rows, columns);
            Ok(Ok(()))
        }
        Report::Places(places) => {
            live.places = places.all;
            Ok(Ok(()))
        }
        Report::Rest => {
            live.telling.resting = true;
            Ok(Ok(()))
        }
    }
}

/// A report is done, or refused. The session ends where there is no memory to note what it made.
fn follow<S: TextStore>(live: &mut Live, editor: &mut Editor<S>, report: Report) -> Course
    requires { HasSoundRun report }
    ensures { spec.TakesReport report editor.old live.old editor.new live.new result }
{
    match take(live, editor, report) {
        Ok(Ok(())) => Course::On,
        Ok(Err(memory)) => Course::NoMemory(memory),
        Err(fault) => refuse(live, fault, Course::On),
    }
}

/// How far a report reaches in the live buffer's text.
fn reach_of(report: &Report) -> Reach
    ensures { result ≡ told.reach_of report.now }
{
    match report {
        Report::One(Op::Insert { id, .. }) => Reach::Element(*id),
        Report::Splice { lo, hi, .. } => Reach::Between { lo: *lo, hi: *hi },
        _ => Reach::Anywhere,
    }
}

/// What the line of a report says is done, or what is wrong with it is told. Answers how the session
/// stands then, and how far the report reached.
pub(crate) fn take_line<S: TextStore>(
    live: &mut Live,
    editor: &mut Editor<S>,
    line: &[u8],
) -> (Course, Reach)
    ensures taken { spec.TakesLine line.now editor.old live.old editor.new live.new result.0 }
    ensures reach { told.IsTold live.old editor.old →
        told.WasTold result.1 live.new editor.new }
{
    live.tally.count_report();
    match read_report(live.alloc, line) {
        Ok(report) => {
            let reach = reach_of(&report);
            (follow(live, editor, report), reach)
        }
        Err(fault) => {
            let course = refuse(live, ReportFault::Line(fault), Course::On);
            (course, Reach::Anywhere)
        }
    }
}
