//! What the shell is told of a fault.
ghost use Rattle.std.specs.Prelude.{◌≡◌, Some};
ghost use Rattle.mgr.specs.Report as spec;

use mg_files::LoadFault;
use mg_session::SessionFault;
use mg_workspace::Failure;
use mgr_show::ShowFault;
use rga_exchange::ReceiveFault;
use rga_lines::LineFault;
use rga_ops::Refusal;
use std::fmt;

/// What the shell is told of a fault: the exit status and, by `Display`, the line on standard
/// error without its newline.
#[derive(Clone, Copy)]
pub struct Report {
    pub status: u8,
    pub message: Message,
}

/// What is said of a fault.
#[derive(Clone, Copy)]
pub enum Message {
    /// A line of the input, counted from 1, and the name of what is wrong with it.
    Line(u64, &'static str),
    /// The log or the text of a buffer, or claims, and the name of what is wrong with it.
    File(&'static str, &'static str),
    /// A line of claims, counted from 1, and the name of what is wrong with it.
    Claim(u64, &'static str),
    /// What is wrong with a note, or with logs together.
    Note(&'static str),
    /// A device failed.
    Device,
    /// A growth of memory was refused.
    Memory,
}

impl fmt::Display for Report {
    ghost output = { λ report. Some (spec.report_text report.message) };

    fn fmt<W: fmt::Write>(&self, f: &mut fmt::Formatter<W>) -> fmt::Result {
        match self.message {
            Message::Line(number, name) => write!(f, "line {number}: {name}"),
            Message::File(file, name) => write!(f, "{file}: {name}"),
            Message::Claim(number, name) => write!(f, "claims: line {number}: {name}"),
            Message::Note(name) => write!(f, "{name}"),
            Message::Device => write!(f, "device fault"),
            Message::Memory => write!(f, "out of memory"),
        }
    }
}

impl Report {
    /// A device failed.
    pub(crate) const DEVICE: Report = Report {
        status: 3,
        message: Message::Device,
    };

    /// A growth of memory was refused.
    pub(crate) const MEMORY: Report = Report {
        status: 4,
        message: Message::Memory,
    };

    /// What the shell is told of a fault of `mgr show`, or of `mgr compact`. It takes no memory.
    ///
    /// Where the input is refused the status is 1, and the line has the number of the line and the
    /// name of its fault or refusal, as `line 2: Conflict`, or `Torn`. Where a device failed it is
    /// 3 and `device fault`, and where memory was wanting 4 and `out of memory`.
    pub fn of_show(fault: &ShowFault) -> Report
        ensures status { result.status ≡ spec.show_status fault.now }
        ensures text { spec.report_text result.message ≡ spec.show_message fault.now }
    {
        match *fault {
            ShowFault::Line(line, fault) => of_line(line, fault),
            ShowFault::Refused(line, refusal) => of_refused(line, refusal),
            ShowFault::Torn(line) => refused(Message::Line(line, "Torn")),
            ShowFault::Read | ShowFault::Write => Report::DEVICE,
            ShowFault::Memory(_) => Report::MEMORY,
        }
    }

    /// What the shell is told of claims that are refused or can't be read. It takes no memory.
    ///
    /// The status is 1, and the line `claims: Cut`, `claims: Count` or `claims: line 2: Json`. Devices
    /// and memory as for `mgr show`.
    pub(crate) fn of_claims(fault: ReceiveFault) -> Report
        ensures status { result.status ≡ spec.log_status fault }
        ensures text { spec.report_text result.message ≡ spec.claims_message fault }
    {
        match fault {
            ReceiveFault::Line(_, LineFault::Memory(_))
            | ReceiveFault::Refused(_, Refusal::Memory(_))
            | ReceiveFault::Memory(_) => Report::MEMORY,
            ReceiveFault::Line(line, fault) => refused(Message::Claim(line, fault.name())),
            ReceiveFault::Refused(line, refusal) => refused(Message::Claim(line, refusal.name())),
            ReceiveFault::Cut => refused(Message::File("claims", "Cut")),
            ReceiveFault::Count => refused(Message::File("claims", "Count")),
            ReceiveFault::Read => Report::DEVICE,
        }
    }

    /// What stands under a name is not loaded. It takes no memory.
    pub(crate) fn of_load(fault: LoadFault) -> Report
        ensures status { result.status ≡ spec.load_status fault }
        ensures text { spec.report_text result.message ≡ spec.load_message fault }
    {
        match fault {
            LoadFault::Log(ReceiveFault::Line(line, fault)) => of_line(line, fault),
            LoadFault::Log(ReceiveFault::Refused(line, refusal)) => of_refused(line, refusal),
            LoadFault::Log(ReceiveFault::Cut) => refused(Message::File("log", "Cut")),
            LoadFault::Log(ReceiveFault::Count) => refused(Message::File("log", "Count")),
            LoadFault::Log(ReceiveFault::Read) => Report::DEVICE,
            LoadFault::Log(ReceiveFault::Memory(_))
            | LoadFault::Store(Refusal::Memory(_))
            | LoadFault::Memory(_) => Report::MEMORY,
            LoadFault::NotText => refused(Message::File("text", "not UTF-8")),
            LoadFault::Store(refusal) => refused(Message::File("text", refusal.name())),
        }
    }

    /// What the shell is told of a fault of `mgr edit`. It takes no memory.
    ///
    /// Where nothing was loaded the status is 1: the line is that of a refused line of the log, as
    /// of `mgr show`, or `text: not UTF-8`, or `text: Full` where the text has more characters than
    /// a buffer. Devices and memory as for `mgr show`. Of a save or an exchange that failed
    /// likewise: a line that a peer said is refused, or a device failed, be that a peer that ended
    /// early.
    pub fn of_session(fault: &SessionFault) -> Report
        ensures status { result.status ≡ spec.session_status fault.now }
        ensures text { spec.report_text result.message ≡ spec.session_message fault.now }
    {
        match *fault {
            SessionFault::Load(fault) => Report::of_load(fault),
            SessionFault::Failed(Failure::Line(line, fault)) => of_line(line, fault),
            SessionFault::Failed(Failure::Refused(line, refusal)) => of_refused(line, refusal),
            SessionFault::File
            | SessionFault::Keys
            | SessionFault::Screen
            | SessionFault::Failed(Failure::Device) => Report::DEVICE,
            SessionFault::Memory(_) | SessionFault::Failed(Failure::Memory) => Report::MEMORY,
        }
    }
}

/// The input is refused.
pub(crate) fn refused(message: Message) -> Report
    ensures status { result.status ≡ 1 }
    ensures message { result.message ≡ message }
{
    Report { status: 1, message }
}

fn of_line(line: u64, fault: LineFault) -> Report
    ensures status { result.status ≡ spec.line_status fault }
    ensures text { spec.report_text result.message ≡ spec.line_message line fault }
{
    match fault {
        LineFault::Memory(_) => Report::MEMORY,
        _ => refused(Message::Line(line, fault.name())),
    }
}

fn of_refused(line: u64, refusal: Refusal) -> Report
    ensures status { result.status ≡ spec.refusal_status refusal }
    ensures text { spec.report_text result.message ≡ spec.refused_message line refusal }
{
    match refusal {
        Refusal::Memory(_) => Report::MEMORY,
        _ => refused(Message::Line(line, refusal.name())),
    }
}
