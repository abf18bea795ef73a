//! How many keys and reports were taken, and which reports were refused.
ghost use Rattle.std.specs.Prelude.{◌≡◌, OnOk, OnErr};
ghost use Rattle.mg_live.specs.Tallies as spec;

use crate::fault::ReportFault;
use mg_events::RefusedReport;
use std::alloc::{AllocError, Global};
use std::marker::Model;

/// How many keys and reports were taken since the start, and which reports of this block were
/// refused.
#[derive(Drop)]
pub(crate) struct Tally {
    pub(crate) keys: u64,
    pub(crate) reports: u64,
    pub(crate) refused: Vec<RefusedReport>,
}

impl Model for Tally {
    ghost use Rattle.std.specs.Prelude.{map};
    ghost use Rattle.mg_live.specs.Tallies as spec;

    ghost Value = { spec.Tally };

    ghost view = { λ t. record {
      keys = t.keys;
      reports = t.reports;
      refused = map spec.told_refusal t.refused.items;
    } };
}

impl Tally {
    /// Nothing was taken yet. Takes no memory.
    pub(crate) fn new(alloc: Global) -> Tally
        ensures { result ≡ spec.no_tally }
    {
        Tally {
            keys: 0,
            reports: 0,
            refused: Vec::new(alloc),
        }
    }

    /// A report more. Takes no memory.
    pub(crate) fn count_report(&mut self)
        ensures { self.new ≡ spec.with_report self.old }
    {
        self.reports = self.reports.saturating_add(1);
    }

    /// The report that was counted last is refused. `AllocError` alone, and nothing changes then.
    pub(crate) fn refuse(&mut self, fault: ReportFault) -> Result<(), AllocError>
        ensures refused { OnOk result (self.new ≡ spec.with_refusal fault self.old) }
        ensures same { OnErr result (self.new ≡ self.old) }
    {
        self.refused.push(RefusedReport {
            number: self.reports,
            fault: fault.name(),
        })?;
        Ok(())
    }
}
