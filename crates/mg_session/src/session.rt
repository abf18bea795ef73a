//! Sessions.
ghost use Rattle.std.specs.Prelude.{◌≡◌, ◌+◌, ◌<◌, ◌≤◌, length, take, Err, IfOk, OnOk, OnErr};
ghost use Rattle.std.specs.Io.KnownBytes.{Consumes, Keeps};
ghost use Rattle.rga_exchange.specs.Counting.{Counts, CountsAs, IsReadToEnd, StaysFlushed, one_more};
ghost use Rattle.mg_session.specs.Display as frames;
ghost use Rattle.mg_session.specs.Moments.{ToldCalls, seen, moment, StepIf};
ghost use Rattle.mg_session.specs.Running as running;
ghost use Rattle.mg_session.specs.declared.course.Course.TheVariants.{On};
ghost use Rattle.mg_session.specs.declared.fault.SessionFault.TheVariants.{File, Keys, Screen};

use crate::course::{Course, session_answer};
use crate::display::{follows_key, follows_session, show};
use crate::fault::SessionFault;
use crate::keys::take_key;
use crate::opening::open;
use mg_editor::Editor;
use mg_files::Port;
use mg_screen::Settings;
use rga_exchange::Counted;
use rga_store::{Teller, TextStore};
use std::alloc::Global;
use std::io;
use std::io::{Read, Write};

/// How many bytes one read of the keys asks for.
const BLOCK: usize = 4096;

/// Which frames are shown of an editor.
#[derive(Drop)]
struct Session {
    alloc: Global,
    /// Whether frames follow steps.
    trace: bool,
}

/// Runs a session: loads what is there under the name of the settings, which is its first call of the
/// port, presses each byte of the keys and carries each request, up to one to quit or to the end of
/// the keys.
///
/// Where steps are traced a frame is written at the start and behind each byte whose step is not
/// pending; else one at the end. Each row of a frame has a newline behind it. What is written is
/// flushed before the next read.
///
/// Faults end a session at once: `File` and `Load` of the first load, `Keys` and `Screen` of the
/// devices, and `Memory`, at the load and where a frame is made. Any other fault is said in the
/// next frame, and the session goes on.
///
/// A strict session that ended without a fault answers `Failed` where the last save or the last
/// exchange of a buffer failed: of these the first, for why it did. A save or an exchange that is
/// done mends the same of its buffer; what failed in a buffer that was removed stays.
pub fn run_keys<S: Teller, R: Read, W: Write, P: Port>(
    alloc: Global,
    keys: &mut Counted<R>,
    screen: &mut Counted<W>,
    port: &mut P,
    settings: &Settings,
) -> Result<(), SessionFault>
    // The keys were taken in turn, and what they show was written, to the end of the session, or up to
    // a read that failed, or to a frame that could not be written or made: then a beginning of it, or
    // nothing. Where the first load was refused, or nothing is loaded by what it answered, no key was
    // read, and nothing was written.
    ensures ran { running.IsSession R.remaining W.contents settings.now result
        (running.devices keys.old screen.old (P.calls port.old))
        (running.devices keys.new screen.new (P.calls port.new)) }

    // What is written is flushed before the next read, and at the end.
    ensures flushed { StaysFlushed Screen result screen.old screen.new }

    // A call of a device that failed is told as such, and not as something else.
    ensures keys { CountsAs Keys result keys.old keys.new }
    ensures screen { CountsAs Screen result screen.old screen.new }
    ensures file { result ≡ Err File → P.failures port.new ≡ one_more (P.failures port.old) }
{
    match open::<S, P>(alloc, port, settings) {
        Ok(mut editor) => {
            let course = session_of(alloc, settings).run(&mut editor, keys, screen, port);
            session_answer(is_strict(settings), editor.failure(), course)
        }
        Err(fault) => Err(fault),
    }
}

/// Whether the settings ask for a strict session.
pub fn is_strict(settings: &Settings) -> bool
    ensures { result ≡ settings.now.strict }
{
    settings.values().strict
}

/// The session that the settings ask for.
fn session_of(alloc: Global, settings: &Settings) -> Session
    ensures { result.trace ≡ settings.now.trace }
{
    Session {
        alloc,
        trace: settings.values().trace,
    }
}

impl Session {
    /// Takes the keys, between a frame at the start and one at the end.
    fn run<S: Teller, R: Read, W: Write, P: Port>(
        &self,
        editor: &mut Editor<S>,
        keys: &mut Counted<R>,
        screen: &mut Counted<W>,
        port: &mut P,
    ) -> Course
        ensures { running.Runs R.remaining self.now.trace
            (moment editor.old (P.calls port.old) (seen W.contents screen.old) On)
            (moment editor.new (P.calls port.new) (seen W.contents screen.new) result)
            keys.old keys.new }
    {
        match self.show_if(editor, self.trace, screen, Course::On) {
            Course::On => {}
            stopped => return stopped,
        }
        let ended = self.take_keys(editor, keys, screen, port);
        self.show_if(editor, follows_session(self.trace, ended), screen, ended)
    }

    /// Writes a frame, where one is asked for. The session then stands as it did, unless that fails.
    fn show_if<S: TextStore, W: Write>(
        &self,
        editor: &mut Editor<S>,
        is_asked: bool,
        screen: &mut Counted<W>,
        course: Course,
    ) -> Course
        ensures { (calls : ToldCalls) → StepIf is_asked frames.Displays
            (moment editor.old calls (seen W.contents screen.old) course)
            (moment editor.new calls (seen W.contents screen.new) result) }
    {
        if is_asked {
            show(self.alloc, editor, screen, course)
        } else {
            course
        }
    }

    /// Presses a key, and shows what it did.
    fn press<S: Teller, W: Write, P: Port>(
        &self,
        editor: &mut Editor<S>,
        key: u8,
        screen: &mut Counted<W>,
        port: &mut P,
    ) -> Course
        ensures { running.ShowsKey self.now.trace key
            (moment editor.old (P.calls port.old) (seen W.contents screen.old) On)
            (moment editor.new (P.calls port.new) (seen W.contents screen.new) result) }
    {
        let course = take_key(editor, key, port);
        let is_asked = follows_key(self.trace, editor.is_amid_keys());
        self.show_if(editor, is_asked, screen, course)
    }

    /// Presses keys up to one that quits.
    fn press_all<S: Teller, W: Write, P: Port>(
        &self,
        editor: &mut Editor<S>,
        keys: &[u8],
        screen: &mut Counted<W>,
        port: &mut P,
    ) -> Course
        ensures { running.TakesKeys self.now.trace keys.now
            (moment editor.old (P.calls port.old) (seen W.contents screen.old) On)
            (moment editor.new (P.calls port.new) (seen W.contents screen.new) result) }
    {
        for key in keys {
            match self.press(editor, *key, screen, port) {
                Course::On => {}
                ended => return ended,
            }
        }
        Course::On
    }

    /// Reads keys and presses them, up to one that quits or to their end.
    fn take_keys<S: Teller, R: Read, W: Write, P: Port>(
        &self,
        editor: &mut Editor<S>,
        keys: &mut Counted<R>,
        screen: &mut Counted<W>,
        port: &mut P,
    ) -> Course
        ensures { running.ReadsKeys self.now.trace
            (moment editor.old (P.calls port.old) (seen W.contents screen.old) On)
            (moment editor.new (P.calls port.new) (seen W.contents screen.new) result)
            (seen R.remaining keys.old) (seen R.remaining keys.new) }
    {
        let mut block = [0u8; BLOCK];
        'reads: loop {
            match read_block(keys, &mut block) {
                Err(_) => return Course::NoKeys,
                Ok(0) => return Course::On,
                Ok(count) => {
                    match self.press_all(editor, &block[..count], screen, port) {
                        Course::On => {}
                        ended => return ended,
                    }
                }
            }
        }
    }
}

/// Reads bytes of the keys, and answers how many.
pub fn read_block<R: Read>(keys: &mut Counted<R>, block: &mut [u8]) -> io::Result<usize>
    requires { 0 < length block.old }
    ensures length { length block.new ≡ length block.old }
    ensures within { IfOk result (λ count. count ≤ length block.new) }
    ensures bytes { IfOk result (λ count.
        Consumes (R.remaining keys.old.inner) (R.remaining keys.new.inner) (take count block.new)) }
    ensures kept { OnErr result (Keeps (R.remaining keys.old.inner) (R.remaining keys.new.inner)) }
    ensures end { IfOk result (λ count. count ≡ 0 → IsReadToEnd R.remaining keys.new) }
    ensures device { Counts result keys.old keys.new }
    ensures call { OnOk result (keys.old.left ≡ keys.new.left + 1) }
{
    keys.read(block)
}
