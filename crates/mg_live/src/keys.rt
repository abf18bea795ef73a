//! Keys of a live session.
ghost use Rattle.std.specs.Prelude.{◌≡◌, ◌&&◌, is_ok, is_some};
ghost use Rattle.rga_exchange.specs.Counting.{Calls};
ghost use Rattle.mg_editor.specs.Editors as editors;
ghost use Rattle.mg_session.specs.Moments.{Known};
ghost use Rattle.mg_session.specs.declared.course.Course.TheVariants.{On};
ghost use Rattle.mg_live.specs.Keys as spec;
ghost use Rattle.mg_live.specs.Made.{if_memory, live_index};
ghost use Rattle.mg_live.specs.States.{moment};
ghost use Rattle.mg_live.specs.Tallies.{with_key};

use crate::live::Live;
use crate::made::{mark_current, note_made};
use mg_editor::{CarryFault, Editor};
use mg_files::{Port, PortFault};
use mg_minibuffer::Request;
use mg_session::{Course, course_behind, press};
use rga_ops::OutOfMemory;
use rga_store::{Teller, TextStore};

/// Presses a byte, and carries what it requests. What the press made is to be told, and so is what
/// the load of the live buffer made. How a save ended is kept. The session ends where there is no
/// memory to note what is to be told.
pub(crate) fn take_key<S: Teller, P: Port>(
    live: &mut Live,
    editor: &mut Editor<S>,
    byte: u8,
    port: &mut P,
) -> Course
    ensures { (screen : Calls Known) → spec.TakesKey byte
        (moment editor.old (P.calls port.old) (P.failures port.old) screen On live.old)
        (moment editor.new (P.calls port.new) (P.failures port.new) screen result live.new) }
{
    count_key(live);
    let mark = mark_current(live, editor);
    let request = press(editor, byte);
    let noted = note_made(live, editor, mark);
    let course = course_behind(&request);
    let was_open = is_open(live, editor);
    let saves = is_save(&request);
    let answer = editor.carry(request, port);
    keep_saved(live, saves, &answer);
    let noted_opened = note_opened(live, editor, was_open);
    go_on(noted, noted_opened, course)
}

/// A key more. Takes no memory.
fn count_key(live: &mut Live)
    ensures { live.new ≡ record live.old { tally = with_key live.old.tally } }
{
    live.tally.keys = live.tally.keys.saturating_add(1);
}

/// Whether a request asks for a save.
fn is_save(request: &Request) -> bool
    ensures { result ≡ spec.is_save request.now }
{
    match request {
        Request::Save => true,
        Request::Idle | Request::Find(_) | Request::Exchange | Request::Serve | Request::Quit => {
            false
        }
    }
}

/// How the last writing of a log ended, once a request was answered: a save is such a writing.
fn saved_by(
    is_save: bool,
    answer: &Result<(), CarryFault>,
    saved: Option<Result<(), PortFault>>,
) -> Option<Result<(), PortFault>>
    ensures { result ≡ spec.saved_by is_save answer.now saved }
{
    if !is_save {
        return saved;
    }
    match answer {
        Ok(_) => Some(Ok(())),
        Err(CarryFault::Port(fault)) => Some(Err(*fault)),
        Err(_) => saved,
    }
}

/// Keeps how a save ended, if the request was one. Takes no memory.
fn keep_saved(live: &mut Live, is_save: bool, answer: &Result<(), CarryFault>)
    ensures { live.new ≡ record live.old {
      saved = spec.saved_by is_save answer.now live.old.saved;
    } }
{
    live.saved = saved_by(is_save, answer, live.saved);
}

/// The session goes on as that, if there was memory for both.
fn go_on(
    noted: Result<(), OutOfMemory>,
    noted_opened: Result<(), OutOfMemory>,
    course: Course,
) -> Course
    ensures { result ≡ if_memory (is_ok noted && is_ok noted_opened) course }
{
    match (noted, noted_opened) {
        (Ok(()), Ok(())) => course,
        (Err(memory), _) | (Ok(()), Err(memory)) => Course::NoMemory(memory),
    }
}

/// Whether the live buffer is open.
fn is_open<S: TextStore>(live: &Live, editor: &Editor<S>) -> bool
    ensures { result ≡ is_some (live_index live.now.name editor.now) }
{
    editor.live_index(live.name.as_slice()).is_some()
}

/// Notes what the load of the live buffer made, if it was opened since. Out of memory alone.
fn note_opened<S: TextStore>(
    live: &mut Live,
    editor: &Editor<S>,
    was_open: bool,
) -> Result<(), OutOfMemory>
    ensures { (old : editors.Editor) → was_open ≡ is_some (live_index live.old.name old) →
        live.new ≡ spec.with_opened (is_ok result) old editor.now live.old }
{
    if was_open {
        return Ok(());
    }
    let Some(index) = editor.live_index(live.name.as_slice()) else {
        return Ok(());
    };
    live.telling.took = false;
    live.telling.add(editor.unsaved_at(index))
}
