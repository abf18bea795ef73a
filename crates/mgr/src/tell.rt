//! What is told beside what is written.
ghost use Rattle.std.specs.Prelude.{[], ◌∷◌, ◌++◌, codes};
ghost use Rattle.mgr.specs.Report.{report_text};
ghost use Rattle.mgr_show.specs.Note.{log_name};
ghost use Rattle.mgr.specs.Telling.{KnownTelling, TellsMore, line, text};

use crate::report::Report;
use mgr_args::JobFault;
use std::io::Eprint;

/// Where the shell is told of faults. What it does not take is lost: there is nowhere left to say
/// so.
pub trait Tell {
    /// What was told so far, where that is known.
    ghost told: { Self → KnownTelling };

    /// Tells the line of a report.
    fn tell(&mut self, report: Report)
        ensures { TellsMore (told self.old) (told self.new)
            (line (report_text report.message) ∷ []) };

    /// Tells the line of a report of the log with this name, which stands in front.
    fn tell_of(&mut self, log: &str, report: Report)
        ensures { TellsMore (told self.old) (told self.new)
            (line (log.now ++ (codes ": " ++ report_text report.message)) ∷ []) };

    /// Tells the line of a report of the log of the note with this name, which stands in front.
    fn tell_of_note(&mut self, name: &str, report: Report)
        ensures { TellsMore (told self.old) (told self.new)
            (line (log_name name.now ++ (codes ": " ++ report_text report.message)) ∷ []) };

    /// Tells the text of a fault of the command line.
    fn tell_text(&mut self, fault: &JobFault)
        ensures { TellsMore (told self.old) (told self.new) (text fault.now ∷ []) };
}

/// Standard error, of which nothing is known.
impl<R: Eprint> Tell for R {
    ghost use Rattle.std.specs.Prelude.{None};

    ghost told = { λ _. None };

    fn tell(&mut self, report: Report) {
        let _ = self.eprintln(report);
    }

    fn tell_of(&mut self, log: &str, report: Report) {
        let _ = eprintln!(self; "{log}: {report}");
    }

    fn tell_of_note(&mut self, name: &str, report: Report) {
        let _ = eprintln!(self; "{name}.ops: {report}");
    }

    fn tell_text(&mut self, fault: &JobFault) {
        let _ = self.eprint(fault);
    }
}
