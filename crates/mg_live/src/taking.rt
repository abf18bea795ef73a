//! Keys and reports of a live session, block by block.
ghost use Rattle.std.specs.Prelude.{◌≡◌, ◌||◌, ℕ, false};
ghost use Rattle.rga_exchange.specs.Counting.{Calls};
ghost use Rattle.mg_events.specs.Reading.{Reading, key, report, told_by};
ghost use Rattle.mg_live.specs.Running as spec;
ghost use Rattle.mg_live.specs.States.{moment};
ghost use Rattle.mg_live.specs.Told.{IsTold};
ghost use Rattle.mg_session.specs.Moments.{Known, ToldCalls, seen};
ghost use Rattle.mg_session.specs.declared.course.Course.TheVariants.{On};

use crate::blocks::end_block;
use crate::changing::{Reach, note_changes};
use crate::keys::take_key;
use crate::live::Live;
use crate::reports::{refuse_line, take_line};
use mg_editor::Editor;
use mg_events::{Event, Reader};
use mg_files::Port;
use mg_session::{Course, read_block};
use rga_exchange::Counted;
use rga_store::{Teller, TextStore};
use std::io::{Read, Write};

/// How many bytes one read of the keys asks for.
const BLOCK: usize = 65536;

/// Takes a key, and notes how the text changed by it.
fn take_noted_key<S: Teller, P: Port>(
    live: &mut Live,
    editor: &mut Editor<S>,
    byte: u8,
    port: &mut P,
) -> Course
    ensures taken { (screen : Calls Known) → spec.TakesEvent (key byte)
        (moment editor.old (P.calls port.old) (P.failures port.old) screen On live.old)
        (moment editor.new (P.calls port.new) (P.failures port.new) screen result live.new) }
    ensures told { result ≡ On → IsTold live.new editor.new }
{
    let course = take_key(live, editor, byte, port);
    note_changes(live, editor, course, Reach::Anywhere)
}

/// Takes a report, and notes how the text changed by it.
fn take_noted_line<S: TextStore>(live: &mut Live, editor: &mut Editor<S>, line: &[u8]) -> Course
    requires { IsTold live.old editor.old }
    ensures taken { (calls : ToldCalls) (faults : ℕ) (screen : Calls Known) →
        spec.TakesEvent (report line.now)
        (moment editor.old calls faults screen On live.old)
        (moment editor.new calls faults screen result live.new) }
    ensures told { result ≡ On → IsTold live.new editor.new }
{
    let (course, reach) = take_line(live, editor, line);
    note_changes(live, editor, course, reach)
}

/// Takes an event.
fn take_event<S: Teller, P: Port>(
    live: &mut Live,
    editor: &mut Editor<S>,
    event: Event,
    line: &[u8],
    port: &mut P,
) -> Course
    requires { IsTold live.old editor.old }
    ensures taken { (screen : Calls Known) (left : Reading) → left.line ≡ line.now →
        spec.TakesEvents (told_by event left)
        (moment editor.old (P.calls port.old) (P.failures port.old) screen On live.old)
        (moment editor.new (P.calls port.new) (P.failures port.new) screen result live.new) }
    ensures told { result ≡ On → IsTold live.new editor.new }
{
    match event {
        Event::Nothing => Course::On,
        Event::Refused(fault) => refuse_line(live, fault),
        Event::Key(byte) => take_noted_key(live, editor, byte, port),
        Event::Line => take_noted_line(live, editor, line),
    }
}

/// Whether there was any event, once there was this one.
fn count_event(event: Event, any: bool) -> bool
    ensures { (left : Reading) → result ≡ (spec.is_any (told_by event left) || any) }
{
    match event {
        Event::Nothing => any,
        Event::Key(_) | Event::Line | Event::Refused(_) => true,
    }
}

/// Takes the bytes of a read, up to one behind which the session ends. Answers how it stands then, and
/// whether there was any event.
fn take_bytes<S: Teller, P: Port>(
    live: &mut Live,
    editor: &mut Editor<S>,
    reader: &mut Reader,
    block: &[u8],
    port: &mut P,
) -> (Course, bool)
    requires { IsTold live.old editor.old }
    ensures taken { (screen : Calls Known) → spec.TakesBytes block.now reader.old false
        (moment editor.old (P.calls port.old) (P.failures port.old)
        screen On live.old) reader.new result.1
        (moment editor.new (P.calls port.new) (P.failures port.new) screen result.0 live.new) }
    ensures told { result.0 ≡ On → IsTold live.new editor.new }
{
    let mut any = false;
    for byte in block {
        let event = reader.read(*byte);
        any = count_event(event, any);
        match take_event(live, editor, event, reader.line(), port) {
            Course::On => {}
            ended => return (ended, any),
        }
    }
    (Course::On, any)
}

/// Takes the bytes of a read, and ends the block if there was an event.
fn take_block<S: Teller, W: Write, P: Port>(
    live: &mut Live,
    editor: &mut Editor<S>,
    reader: &mut Reader,
    block: &[u8],
    screen: &mut Counted<W>,
    port: &mut P,
) -> Course
    requires { IsTold live.old editor.old }
    ensures taken { spec.TakesBlock block.now reader.old
        (moment editor.old (P.calls port.old) (P.failures port.old)
        (seen W.contents screen.old) On live.old) reader.new
        (moment editor.new (P.calls port.new) (P.failures port.new)
        (seen W.contents screen.new) result live.new) }
    ensures told { result ≡ On → IsTold live.new editor.new }
{
    let (course, any) = take_bytes(live, editor, reader, block, port);
    if any {
        end_block(live, editor, screen, port, course)
    } else {
        course
    }
}

/// Takes what the keys mean, block by block, up to one behind which the session ends, or to their
/// end.
pub(crate) fn take_keys<S: Teller, R: Read, W: Write, P: Port>(
    live: &mut Live,
    editor: &mut Editor<S>,
    reader: &mut Reader,
    keys: &mut Counted<R>,
    screen: &mut Counted<W>,
    port: &mut P,
    begun: Course,
) -> Course
    requires { begun ≡ On → IsTold live.old editor.old }
    ensures { spec.ReadsKeys reader.old
        (moment editor.old (P.calls port.old) (P.failures port.old)
        (seen W.contents screen.old) begun live.old)
        reader.new
        (moment editor.new (P.calls port.new) (P.failures port.new)
        (seen W.contents screen.new) result live.new)
        (seen R.remaining keys.old) (seen R.remaining keys.new) }
{
    let mut course = begun;
    let mut block = [0u8; BLOCK];
    'reads: loop {
        match course {
            Course::On => {}
            ended => return ended,
        }
        match read_block(keys, &mut block) {
            Err(_) => return Course::NoKeys,
            Ok(0) => return Course::On,
            Ok(count) => {
                course = take_block(live, editor, reader, &block[..count], screen, port);
            }
        }
    }
}
