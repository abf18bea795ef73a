//! The end of a live session.
ghost use Rattle.std.specs.Prelude.{◌≡◌};
ghost use Rattle.mg_live.specs.Running as spec;
ghost use Rattle.mg_live.specs.States.{moment};
ghost use Rattle.mg_session.specs.Moments.{seen};

use crate::blocks::end_block;
use crate::fault::ReportFault;
use crate::live::Live;
use crate::reports::refuse;
use mg_editor::Editor;
use mg_files::Port;
use mg_session::{Course, is_on};
use rga_exchange::Counted;
use rga_store::Teller;
use std::io::Write;

/// What the keys ended within is refused.
fn cut_if(live: &mut Live, is_begun: bool, course: Course) -> Course
    ensures { spec.CutsIf is_begun course live.old live.new result }
{
    if is_begun {
        refuse(live, ReportFault::Cut, course)
    } else {
        course
    }
}

/// A report that was begun is one more.
fn count_if(live: &mut Live, is_begun: bool)
    ensures { live.new ≡ spec.counted_if is_begun live.old }
{
    if is_begun {
        live.tally.count_report();
    }
}

/// A report that was begun is refused, and so is text that more was to come of.
fn cut(live: &mut Live, is_within: bool) -> Course
    ensures { spec.Cuts is_within live.old live.new result }
{
    let is_pasted = live.paste.is_begun();
    let is_spliced = live.splice.is_begun();
    count_if(live, is_within);
    let course = cut_if(live, is_within, Course::On);
    let course = cut_if(live, is_pasted, course);
    cut_if(live, is_spliced, course)
}

/// Refuses what the keys ended within, where nothing failed, saves all, and tells it.
pub(crate) fn finish<S: Teller, W: Write, P: Port>(
    live: &mut Live,
    editor: &mut Editor<S>,
    is_within: bool,
    screen: &mut Counted<W>,
    port: &mut P,
    course: Course,
) -> Course
    ensures { spec.Finishes is_within
        (moment editor.old (P.calls port.old) (P.failures port.old)
        (seen W.contents screen.old) course live.old)
        (moment editor.new (P.calls port.new) (P.failures port.new)
        (seen W.contents screen.new) result live.new) }
{
    let course = if is_on(course) {
        cut(live, is_within)
    } else {
        course
    };
    live.telling.resting = true;
    end_block(live, editor, screen, port, course)
}
