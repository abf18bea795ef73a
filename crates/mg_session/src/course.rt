//! How a session stands.
ghost use Rattle.std.specs.Prelude.{◌≡◌};
ghost use Rattle.mg_session.specs.Courses as spec;

use crate::fault::SessionFault;
use mg_workspace::Failure;
use rga_ops::OutOfMemory;

/// How a session stands after what it took.
#[derive(Clone, Copy)]
pub enum Course {
    /// It goes on.
    On,
    /// A key quit.
    Quit,
    /// The keys could not be read.
    NoKeys,
    /// A frame could not be written.
    NoScreen,
    /// Memory was refused for a frame.
    NoMemory(OutOfMemory),
}

/// Whether a session that stands so goes on.
pub fn is_on(course: Course) -> bool
    ensures { result ≡ spec.is_on course }
{
    match course {
        Course::On => true,
        Course::Quit | Course::NoKeys | Course::NoScreen | Course::NoMemory(_) => false,
    }
}

/// What a session that stands so is answered by.
pub fn course_answer(course: Course) -> Result<(), SessionFault>
    ensures { result ≡ spec.course_answer course }
{
    match course {
        Course::On | Course::Quit => Ok(()),
        Course::NoKeys => Err(SessionFault::Keys),
        Course::NoScreen => Err(SessionFault::Screen),
        Course::NoMemory(memory) => Err(SessionFault::Memory(memory)),
    }
}

/// What a session is answered by in the end, which may be strict. Its own fault comes first.
pub fn session_answer(
    strict: bool,
    first: Option<Failure>,
    course: Course,
) -> Result<(), SessionFault>
    ensures { result ≡ spec.session_answer strict first course }
{
    course_answer(course)?;
    match first {
        Some(why) if strict => Err(SessionFault::Failed(why)),
        _ => Ok(()),
    }
}
