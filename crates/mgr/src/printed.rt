//! What is printed of a merge and of a mended log.
ghost use Rattle.std.specs.Prelude.{◌≡◌, Some};
ghost use Rattle.mgr.specs.Printed as spec;

use mgr_mend::LeftOut;
use std::fmt;

/// How many operations of a merge were new: a line, with its newline.
#[derive(Clone, Copy)]
pub(crate) struct Count(pub usize);

impl fmt::Display for Count {
    ghost output = { λ count. Some (spec.count_line count.0) };

    fn fmt<W: fmt::Write>(&self, f: &mut fmt::Formatter<W>) -> fmt::Result {
        let number = self.0;
        if number == 1 {
            write!(f, "1 new operation\n")
        } else {
            write!(f, "{number} new operations\n")
        }
    }
}

/// Where that is which was left out of a log.
const KEPT: &str =
    "What was left out is in .ops.refused, beside the log; the old log is there too, with a ~.
Whoever wrote what was left out goes on under another number.
";

/// What was left out of a log, and where it is: lines, with their newlines.
#[derive(Clone, Copy)]
pub(crate) struct Mending(pub LeftOut);

impl fmt::Display for Mending {
    ghost output = { λ mending. Some (spec.left_out_text mending.0) };

    fn fmt<W: fmt::Write>(&self, f: &mut fmt::Formatter<W>) -> fmt::Result {
        let left_out = self.0;
        if is_nothing(left_out) {
            return write!(f, "nothing to mend\n");
        }
        let faulty = Faulty(left_out.faulty);
        let beaten = Beaten(left_out.beaten);
        let torn = CutOff(left_out.torn);
        let excess = Excess(left_out.excess);
        write!(f, "{faulty}{beaten}{torn}{excess}{KEPT}")
    }
}

fn is_nothing(left_out: LeftOut) -> bool
    ensures { result ≡ spec.is_nothing left_out }
{
    left_out.faulty == 0 && left_out.beaten == 0 && !left_out.torn && left_out.excess == 0
}

/// So many lines that are no operation.
#[derive(Clone, Copy)]
struct Faulty(u64);

impl fmt::Display for Faulty {
    ghost output = { λ faulty. Some (spec.faulty_text faulty.0) };

    fn fmt<W: fmt::Write>(&self, f: &mut fmt::Formatter<W>) -> fmt::Result {
        let number = self.0;
        if number == 0 {
            return Ok(());
        }
        if number == 1 {
            write!(f, "1 line is no operation\n")
        } else {
            write!(f, "{number} lines are no operation\n")
        }
    }
}

/// So many lines with an insertion in whose place another one stays.
#[derive(Clone, Copy)]
struct Beaten(u64);

impl fmt::Display for Beaten {
    ghost output = { λ beaten. Some (spec.beaten_text beaten.0) };

    fn fmt<W: fmt::Write>(&self, f: &mut fmt::Formatter<W>) -> fmt::Result {
        let number = self.0;
        if number == 0 {
            return Ok(());
        }
        if number == 1 {
            write!(f, "1 line conflicts with one that stays\n")
        } else {
            write!(f, "{number} lines conflict with others that stay\n")
        }
    }
}

/// Whether a last line was cut off.
#[derive(Clone, Copy)]
struct CutOff(bool);

impl fmt::Display for CutOff {
    ghost output = { λ cut_off. Some (spec.torn_text cut_off.0) };

    fn fmt<W: fmt::Write>(&self, f: &mut fmt::Formatter<W>) -> fmt::Result {
        if !self.0 {
            return Ok(());
        }
        write!(f, "the last line was cut off\n")
    }
}

/// So many lines that a note has no room for.
#[derive(Clone, Copy)]
struct Excess(u64);

impl fmt::Display for Excess {
    ghost output = { λ excess. Some (spec.excess_text excess.0) };

    fn fmt<W: fmt::Write>(&self, f: &mut fmt::Formatter<W>) -> fmt::Result {
        let number = self.0;
        if number == 0 {
            return Ok(());
        }
        if number == 1 {
            write!(f, "1 line would bring more than 1,000,000 identifiers\n")
        } else {
            write!(
                f,
                "{number} lines would bring more than 1,000,000 identifiers\n"
            )
        }
    }
}
