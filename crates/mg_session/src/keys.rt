//! Keys of a session, one by one.
ghost use Rattle.std.specs.Prelude.{◌≡◌};
ghost use Rattle.mg_editor.specs.Editors as editors;
ghost use Rattle.mg_editor.specs.Presses as presses;
ghost use Rattle.mg_session.specs.Keys as spec;
ghost use Rattle.mg_session.specs.Moments.{Known, moment};
ghost use Rattle.mg_session.specs.declared.course.Course.TheVariants.{On};
ghost use Rattle.rga_exchange.specs.Counting.{Calls};

use crate::course::Course;
use mg_editor::Editor;
use mg_files::Port;
use mg_minibuffer::{Message, Request};
use mg_plain::Notice;
use rga_store::{Teller, TextStore};

/// Presses a byte, and answers what it requests. Want of memory is said, and requests nothing.
pub fn press<S: TextStore>(editor: &mut Editor<S>, byte: u8) -> Request
    ensures { (answer : presses.PressAnswer) × (pressed : editors.Editor)
        × presses.Pressed byte editor.old pressed answer
        × (editor.new ≡ spec.said answer pressed) × (result ≡ spec.request_of answer) }
{
    match editor.press(byte) {
        Ok(request) => request,
        Err(memory) => {
            editor.tell(Message::Refused(Notice::Memory(memory)));
            Request::Idle
        }
    }
}

/// Presses a byte, carries what it requests, and answers how the session stands then. What fails is
/// said, and so is out of memory: neither ends the session, which only a request to quit does.
pub(crate) fn take_key<S: Teller, P: Port>(editor: &mut Editor<S>, byte: u8, port: &mut P) -> Course
    ensures { (screen : Calls Known) → spec.TakesKey byte
        (moment editor.old (P.calls port.old) screen On)
        (moment editor.new (P.calls port.new) screen result) }
{
    let request = press(editor, byte);
    let course = course_behind(&request);
    let _ = editor.carry(request, port);
    course
}

/// How a session stands after a request. Takes no memory.
pub fn course_behind(request: &Request) -> Course
    ensures { result ≡ spec.course_behind request.now }
{
    match request {
        Request::Idle | Request::Save | Request::Find(_) | Request::Exchange | Request::Serve =>
            Course::On,
        Request::Quit => Course::Quit,
    }
}
