//! Why a report was not taken.
ghost use Rattle.std.specs.Prelude.{◌≡◌};
ghost use Rattle.mg_live.specs.FaultNames.{report_fault_name};

use mg_editor::PasteFault;
use mg_workspace::{ActionFault, Cause};
use rga_lines::LineFault;
use rga_ops::Refusal;

/// Why a report was not taken, which then changed nothing.
#[derive(Clone, Copy, PartialEq, Eq)]
pub enum ReportFault {
    /// Its line says nothing that a report may say, is too long, or found no memory. `Long` too of
    /// more text than is held.
    Line(LineFault),
    /// The keys ended within it, or before what goes on with it.
    Cut,
    /// The text type refuses an operation, a pasted text or a splice.
    Refused(Refusal),
    /// A counter is more than 2^32 above the greatest that is known.
    Far,
    /// The live buffer was removed.
    Closed,
    /// Text is pasted in query-replace, at the question whether to quit, or within a key sequence.
    Busy,
    /// A splice was made by a text that is no longer there.
    Stale,
    /// A splice reaches beyond the text.
    Range,
}

impl ReportFault {
    /// The fault's name, as statuses tell it.
    pub fn name(self) -> &'static str
        ensures { result.now ≡ report_fault_name self }
    {
        match self {
            ReportFault::Line(fault) => fault.name(),
            ReportFault::Cut => "Cut",
            ReportFault::Refused(refusal) => refusal.name(),
            ReportFault::Far => "Far",
            ReportFault::Closed => "Closed",
            ReportFault::Busy => "Busy",
            ReportFault::Stale => "Stale",
            ReportFault::Range => "Range",
        }
    }
}

impl From<ActionFault> for ReportFault {
    ghost use Rattle.std.specs.Prelude.{◌≡◌};
    ghost use Rattle.mg_live.specs.FaultNames.{of_action};

    ghost from_gives = { λ e fault. fault ≡ of_action e };

    fn from(e: ActionFault) -> ReportFault {
        match e {
            ActionFault::Memory(memory) => ReportFault::Line(LineFault::Memory(memory)),
            ActionFault::Refused(cause) => match cause {
                Cause::BufferFull => ReportFault::Refused(Refusal::Full),
                Cause::IdentifiersUsedUp => ReportFault::Refused(Refusal::Clock),
                _ => ReportFault::Range,
            },
        }
    }
}

impl From<PasteFault> for ReportFault {
    ghost use Rattle.std.specs.Prelude.{◌≡◌};
    ghost use Rattle.mg_live.specs.FaultNames.{of_paste};

    ghost from_gives = { λ e fault. fault ≡ of_paste e };

    fn from(e: PasteFault) -> ReportFault {
        match e {
            PasteFault::Busy => ReportFault::Busy,
            PasteFault::Action(fault) => ReportFault::from(fault),
        }
    }
}
