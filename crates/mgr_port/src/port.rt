//! A port of files and sockets.
ghost use Rattle.std.specs.Prelude.{◌≡◌, ◌≢◌, [], ◌∷◌, Err, IfOk, map};
ghost use Rattle.std.specs.Net.Addr.{ipv4_octets};
ghost use Rattle.std.specs.Net.Socket.{v4_ip, v4_port};
ghost use Rattle.mg_files.specs.Calls.{failures_after, failures_after_link};
ghost use Rattle.mg_files.specs.declared.port.LinkFault.TheVariants.{NoPort};
ghost use Rattle.mgr_port.specs.Logs.{raised};
ghost use Rattle.mgr_port.specs.Names.{ArePathsOf};
ghost use Rattle.mgr_port.specs.Notes.{closed};

use crate::logs::Logs;
use crate::names::Paths;
use crate::note::Note;
use crate::notes::{close_replaced, index_of};
use crate::rewriting::OpenLog;
use crate::system::System;
use crate::vacating::remove_open;
use mg_files::{Found, LinkFault, LogLines, Port, PortFault};
use rga_exchange::Counted;
use rga_ops::{OutOfMemory, of_io};
use std::fs::File;
use std::io;
use std::io::Read;
use std::net::{
    Ipv4Addr, Net, OpenListener, OpenStream, Shutdown, SocketAddrV4, TcpListener, TcpStream,
};
use std::rt::Files;

/// Files by their paths: the text of a buffer under its name, its log under that name with `.ops`
/// behind it. It makes two further files, with `.ops.new` and `.ops.text` behind the name, which
/// then take the names of the log and of the text; what is refused of a log is kept with
/// `.ops.refused` behind it. Peers are met on 127.0.0.1, at a port number that may be left out.
///
/// A note that was loaded stays locked for as long as the port is there, under whatever path it is
/// asked for. What stands under a name when another file takes it, and is nothing that the port read
/// or wrote, is kept beside it, with `~` behind the name, or `.~1~` and so on. A log that is a link is
/// the one behind it.
pub struct FilePort<R: Files<File = File> + Net + AllocGlobal + Drop> {
    rt: R,
    number: Option<u16>,
    failures: u64,
    notes: Vec<Note<File>>,
}

impl<R: Files<File = File> + Net + AllocGlobal + Drop> Drop for FilePort<R> {
    fn drop(self) {
        for note in &self.notes {
            note.leave(&mut System { rt: &self.rt });
        }
        let FilePort {
            rt: _,
            number: _,
            failures: _,
            notes: _,
        } = self;
    }
}

impl<R: Files<File = File> + Net + AllocGlobal + Drop> FilePort<R> {
    /// A port of which no call has failed, and which meets peers at this number. Without one it
    /// answers `NoPort` where it is asked for a link. Takes no memory and opens nothing.
    pub fn new(rt: R, number: Option<u16>) -> FilePort<R>
        ensures failures { result.failures ≡ 0 }
        ensures number { result.number ≡ number }
    {
        let notes = Vec::new(rt.alloc());
        FilePort {
            rt,
            number,
            failures: 0,
            notes,
        }
    }
}

/// What a call for a file answered, in a port's words; a failure of the device is counted.
fn told<T: Drop>(failures: &mut u64, answer: io::Result<T>) -> Result<T, PortFault>
    ensures { failures.new ≡ failures_after result failures.old }
{
    match answer {
        Ok(value) => Ok(value),
        Err(error) => match of_io(&error) {
            Some(memory) => Err(PortFault::Memory(memory)),
            None => {
                *failures = failures.saturating_add(1);
                Err(PortFault::File)
            }
        },
    }
}

/// The same of a call for a link.
fn link_told<T: Drop>(failures: &mut u64, answer: io::Result<T>) -> Result<T, LinkFault>
    ensures device { failures.new ≡ failures_after_link result failures.old }
    ensures port { result ≢ Err NoPort }
{
    match told(failures, answer) {
        Ok(value) => Ok(value),
        Err(PortFault::Memory(memory)) => Err(LinkFault::Memory(memory)),
        Err(PortFault::File) => Err(LinkFault::Socket),
    }
}

/// How many calls failed, with so many more of a device that was given back.
fn failures_with(failures: u64, more: u64) -> u64
    ensures { result ≡ raised failures more }
{
    failures.saturating_add(more)
}

/// The paths of a note's files.
fn paths_of<R: Files<File = File> + AllocGlobal>(rt: &R, name: &str) -> Result<Paths, OutOfMemory>
    ensures { IfOk result (ArePathsOf name.now) }
{
    Paths::new(&mut System { rt }, name)
}

/// The address at which peers are met: that of this machine alone, 127.0.0.1, and the number.
fn own_address(number: u16) -> SocketAddrV4
    ensures machine { ipv4_octets (v4_ip result) ≡ 127 ∷ 0 ∷ 0 ∷ 1 ∷ [] }
    ensures number { v4_port result ≡ number }
{
    SocketAddrV4::new(Ipv4Addr::new(127, 0, 0, 1), number)
}

/// The first peer that connects at a number, and no other. While none is there yet, files are closed.
fn await_peer<R: Files<File = File> + Net>(
    rt: &R,
    notes: &mut Vec<Note<File>>,
    number: u16,
) -> io::Result<R::Stream>
    ensures { map closed notes.new.items ≡ map closed notes.old.items }
{
    let listener = TcpListener::bind(rt, own_address(number))?;
    close_replaced(notes);
    let (stream, _) = listener.accept()?;
    Ok(stream)
}

impl<R: Files<File = File> + Net + AllocGlobal + Drop> Port for FilePort<R> {
    ghost use Rattle.std.specs.Prelude.{◌≡◌, ◌↔◌, None, Err};
    ghost use Rattle.mg_files.specs.Calls.{failures_after, failures_after_link};
    ghost use Rattle.mg_files.specs.Links.{KeepsBytes};
    ghost use Rattle.mg_files.specs.declared.port.LinkFault.TheVariants.{NoPort};

    type Link = R::Stream;

    ghost calls = { λ _. None };

    ghost links = { λ _. None };

    ghost failures = { λ p. p.failures };

    /// Where there is a log, the text is read if it is not known as this port's own. A note that
    /// something else has open is refused, be it under another path, and so is a log that is no plain
    /// file, or a text without a log that is none.
    fn load(&mut self, name: &str) -> Result<Found, PortFault>
        ensures device { self.new.failures ≡ failures_after result self.old.failures }
        ensures number { self.new.number ≡ self.old.number }
    {
        let index = index_of(&mut System { rt: &self.rt }, &mut self.notes, name)?;
        let found = self.notes[index].load(&mut System { rt: &self.rt });
        told(&mut self.failures, found)
    }

    /// The lines are on the device once it answers `Ok`. Nothing is written where the log is gone,
    /// is another file, or is not as it was left, but for lines that were put behind it.
    fn append(&mut self, name: &str, lines: &LogLines) -> Result<(), PortFault>
        ensures device { self.new.failures ≡ failures_after result self.old.failures }
        ensures number { self.new.number ≡ self.old.number }
    {
        let index = index_of(&mut System { rt: &self.rt }, &mut self.notes, name)?;
        let answer = self.notes[index].append(&mut System { rt: &self.rt }, lines);
        told(&mut self.failures, answer)
    }

    /// Whenever the machine stops, the log is the old one or the new one, whole. The old one is
    /// kept.
    fn replace(&mut self, name: &str, lines: &LogLines) -> Result<(), PortFault>
        ensures device { self.new.failures ≡ failures_after result self.old.failures }
        ensures number { self.new.number ≡ self.old.number }
    {
        let index = index_of(&mut System { rt: &self.rt }, &mut self.notes, name)?;
        let answer = self.notes[index].replace(&mut System { rt: &self.rt }, lines);
        told(&mut self.failures, answer)
    }

    /// So is the text, where it is a plain file in a folder that takes new ones. Its permissions
    /// stay; where they do not let it be written, it is refused.
    fn put_text(&mut self, name: &str, bytes: &[u8]) -> Result<(), PortFault>
        ensures device { self.new.failures ≡ failures_after result self.old.failures }
        ensures number { self.new.number ≡ self.old.number }
    {
        let index = index_of(&mut System { rt: &self.rt }, &mut self.notes, name)?;
        let answer = self.notes[index].put_text(&mut System { rt: &self.rt }, bytes);
        told(&mut self.failures, answer)
    }

    /// To the peer that listens at the number. `NoPort` where there is none, and never else.
    fn connect(&mut self) -> Result<R::Stream, LinkFault>
        ensures device { self.new.failures ≡ failures_after_link result self.old.failures }
        ensures no_port { (result ≡ Err NoPort) ↔ (self.old.number ≡ None) }
        ensures number { self.new.number ≡ self.old.number }
    {
        let Some(number) = self.number else {
            return Err(LinkFault::NoPort);
        };
        let answer = TcpStream::connect(&self.rt, own_address(number));
        link_told(&mut self.failures, answer)
    }

    /// Listens at the number until one peer has connected, and no longer. `NoPort` where there is
    /// none, and never else.
    fn accept(&mut self) -> Result<R::Stream, LinkFault>
        ensures device { self.new.failures ≡ failures_after_link result self.old.failures }
        ensures no_port { (result ≡ Err NoPort) ↔ (self.old.number ≡ None) }
        ensures number { self.new.number ≡ self.old.number }
    {
        let Some(number) = self.number else {
            return Err(LinkFault::NoPort);
        };
        let answer = await_peer(&self.rt, &mut self.notes, number);
        link_told(&mut self.failures, answer)
    }

    fn finish(&mut self, link: &mut R::Stream) -> Result<(), LinkFault>
        ensures device { self.new.failures ≡ failures_after_link result self.old.failures }
        ensures bytes { KeepsBytes R.Stream.remaining R.Stream.contents link.old link.new }
        ensures number { self.new.number ≡ self.old.number }
    {
        let answer = link.shutdown(Shutdown::Write);
        // The peer is awaited next.
        close_replaced(&mut self.notes);
        link_told(&mut self.failures, answer)
    }

    fn failures(&self) -> u64 {
        self.failures
    }
}

impl<R: Files<File = File> + Net + AllocGlobal + Drop> Logs for FilePort<R> {
    ghost use Rattle.std.specs.Prelude.{◌≡◌, None};
    ghost use Rattle.mg_files.specs.Calls.{failures_after};
    ghost use Rattle.mgr_port.specs.Logs.{raised};

    type Log = OpenLog<File>;

    type Next = File;

    ghost standing = { λ _ _. None };

    ghost refused = { λ _ _. None };

    ghost failures = { λ p. p.failures };

    /// A log that may not be written is refused.
    fn open_log(&mut self, name: &str) -> Result<OpenLog<File>, PortFault> {
        let paths = paths_of(&self.rt, name)?;
        let opened = OpenLog::at(&mut System { rt: &self.rt }, paths.log.as_str());
        told(&mut self.failures, opened)
    }

    fn read_log(&mut self, log: &mut OpenLog<File>) -> Result<Vec<u8>, PortFault> {
        let mut bytes = Vec::new(self.rt.alloc());
        let read = log.read_to_end(&mut bytes);
        told(&mut self.failures, read)?;
        Ok(bytes)
    }

    /// They stand under the name of the log with `.refused` behind it, each time on lines of their
    /// own. A link is no plain file.
    fn keep_refused(
        &mut self,
        name: &str,
        log: &mut OpenLog<File>,
        bytes: &[u8],
    ) -> Result<(), PortFault> {
        let path = paths_of(&self.rt, name)?.refused(self.rt.alloc())?;
        let kept = log.keep_refused(&mut System { rt: &self.rt }, path.as_str(), bytes);
        told(&mut self.failures, kept)
    }

    fn make_next(&mut self, name: &str, log: &OpenLog<File>) -> Result<File, PortFault> {
        let paths = paths_of(&self.rt, name)?;
        let path = paths.next_log.as_str();
        let made = log.make_next(&mut System { rt: &self.rt }, path);
        told(&mut self.failures, made)
    }

    fn name_next(
        &mut self,
        name: &str,
        log: Counted<OpenLog<File>>,
        next: Counted<File>,
    ) -> Result<(), PortFault>
        ensures device { self.new.failures ≡ failures_after result
            (raised (raised self.old.failures log.failures) next.failures) }
    {
        self.failures = failures_with(self.failures, log.failures());
        self.failures = failures_with(self.failures, next.failures());
        let paths = paths_of(&self.rt, name)?;
        let (log, next) = (log.into_inner(), next.into_inner());
        let named = log.name_next(&mut System { rt: &self.rt }, &paths, next);
        told(&mut self.failures, named)
    }

    fn leave_next(&mut self, name: &str, log: Counted<OpenLog<File>>, next: Counted<File>)
        ensures device { self.new.failures
            ≡ raised (raised self.old.failures log.failures) next.failures }
    {
        self.failures = failures_with(self.failures, log.failures());
        self.failures = failures_with(self.failures, next.failures());
        if let Ok(paths) = paths_of(&self.rt, name) {
            let folder = &mut System { rt: &self.rt };
            let _ = remove_open(folder, paths.next_log.as_str(), &next.into_inner());
        }
    }
}
