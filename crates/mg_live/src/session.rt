//! Live sessions.
ghost use Rattle.std.specs.Prelude.{◌≡◌, Err};
ghost use Rattle.rga_exchange.specs.Counting.{CountsAs, StaysFlushed, one_more};
ghost use Rattle.mg_live.specs.Running as spec;
ghost use Rattle.mg_live.specs.States.{moment};
ghost use Rattle.mg_session.specs.Moments.{seen};
ghost use Rattle.mg_session.specs.Running.{devices};
ghost use Rattle.mg_session.specs.declared.fault.SessionFault.TheVariants.{File, Keys, Screen};

use crate::blocks::end_block;
use crate::changing::{Reach, note_changes};
use crate::finishing::finish;
use crate::live::Live;
use crate::opening::note_start;
use crate::taking::take_keys;
use mg_editor::Editor;
use mg_events::Reader;
use mg_files::Port;
use mg_screen::Settings;
use mg_session::{Course, SessionFault, is_strict, open, session_answer};
use rga_exchange::Counted;
use rga_ops::OutOfMemory;
use rga_store::Teller;
use std::alloc::Global;
use std::io::{Read, Write};

/// Takes what the keys mean, between a status at the start and one at the end.
fn run<S: Teller, R: Read, W: Write, P: Port>(
    live: &mut Live,
    editor: &mut Editor<S>,
    keys: &mut Counted<R>,
    screen: &mut Counted<W>,
    port: &mut P,
    course: Course,
) -> Course
    ensures { spec.Runs R.remaining
        (moment editor.old (P.calls port.old) (P.failures port.old)
        (seen W.contents screen.old) course live.old)
        (moment editor.new (P.calls port.new) (P.failures port.new)
        (seen W.contents screen.new) result live.new)
        keys.old keys.new }
{
    let noted = note_changes(live, editor, course, Reach::Anywhere);
    let begun = end_block(live, editor, screen, port, noted);
    let mut reader = Reader::new(live.alloc);
    match take_keys(live, editor, &mut reader, keys, screen, port, begun) {
        Course::Quit => Course::Quit,
        course => finish(live, editor, reader.is_within(), screen, port, course),
    }
}

/// Runs a live session: loads what is there under the name of the settings, which is its first call
/// of the port, and takes keys and reports, block by block, up to a key that quits or to the end of
/// the keys.
pub fn run_live<S: Teller, R: Read, W: Write, P: Port>(
    alloc: Global,
    keys: &mut Counted<R>,
    screen: &mut Counted<W>,
    port: &mut P,
    settings: &Settings,
) -> Result<(), SessionFault>
    ensures ran { spec.IsLiveSession R.remaining W.contents settings.now result
        (P.failures port.old) (P.failures port.new)
        (devices keys.old screen.old (P.calls port.old))
        (devices keys.new screen.new (P.calls port.new)) }

    // What is written is flushed before the next read, and at the end.
    ensures flushed { StaysFlushed Screen result screen.old screen.new }

    // A call of a device that failed is told as such, and not as something else.
    ensures keys { CountsAs Keys result keys.old keys.new }
    ensures screen { CountsAs Screen result screen.old screen.new }
    ensures file { result ≡ Err File → P.failures port.new ≡ one_more (P.failures port.old) }
{
    let asked = settings.values();
    let mut live = match Live::new(alloc, asked) {
        Ok(live) => live,
        Err(refused) => return Err(SessionFault::Memory(OutOfMemory::from(refused))),
    };
    match open::<S, P>(alloc, port, settings) {
        Ok(mut editor) => {
            let begun = note_start(&mut live, &editor, asked);
            let course = run(&mut live, &mut editor, keys, screen, port, begun);
            session_answer(is_strict(settings), editor.failure(), course)
        }
        Err(fault) => Err(fault),
    }
}
