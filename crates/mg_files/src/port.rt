//! Where the files of buffers are, and peers.
ghost use Rattle.std.specs.Prelude.{◌≡◌, ℕ, List, [], ◌∷◌, Option, IfOk, OnErr};
ghost use Rattle.mg_files.specs.Links.{KeepsBytes};
ghost use Rattle.mg_files.specs.Memory.{PortMemory, LinkMemory};
ghost use Rattle.mg_files.specs.Calls.{Call, call, link_call, Adds, told, load_told, link_told, failures_after, failures_after_link};

use crate::lines::LogLines;
use rga_ops::OutOfMemory;
use std::alloc::AllocError;
use std::io::{Read, Write};
use std::marker::Model;

/// Why a port did not do what it was asked of its files.
#[derive(Clone, Copy, PartialEq, Eq)]
pub enum PortFault {
    /// A file could not be read or written.
    File,
    /// A growth of memory was refused.
    Memory(OutOfMemory),
}

impl From<OutOfMemory> for PortFault {
    ghost from_gives = { λ _ fault. fault ≡ PortMemory };

    fn from(memory: OutOfMemory) -> PortFault {
        PortFault::Memory(memory)
    }
}

impl From<AllocError> for PortFault {
    ghost from_gives = { λ _ fault. fault ≡ PortMemory };

    fn from(refused: AllocError) -> PortFault {
        PortFault::Memory(OutOfMemory::from(refused))
    }
}

/// Why a port did not do what it was asked of a link.
#[derive(Clone, Copy, PartialEq, Eq)]
pub enum LinkFault {
    /// A link could not be opened, or sending on it could not be ended.
    Socket,
    /// There is nowhere to meet a peer.
    NoPort,
    /// A growth of memory was refused.
    Memory(OutOfMemory),
}

impl From<AllocError> for LinkFault {
    ghost from_gives = { λ _ fault. fault ≡ LinkMemory };

    fn from(refused: AllocError) -> LinkFault {
        LinkFault::Memory(OutOfMemory::from(refused))
    }
}

/// Which of the calls that a port tells: the load of files, those that write one, and those for a
/// link.
#[derive(Clone, Copy)]
pub enum CallKind {
    Load,
    Append,
    Replace,
    PutText,
    Connect,
    Accept,
    Finish,
}

/// What is there under a name: the log, and the text.
#[derive(Drop)]
pub struct Found {
    pub log: Option<Vec<u8>>,
    pub text: Option<Vec<u8>>,
}

impl Model for Found {
    ghost use Rattle.std.specs.Option.{option_map};
    ghost use Rattle.mg_files.specs.Files.{Files};

    ghost Value = { Files };

    ghost view = { λ found. record {
      log = option_map (λ bytes. bytes.items) found.log;
      text = option_map (λ bytes. bytes.items) found.text;
    } };
}

/// A place for the files of buffers, which has a log and a text under a name, and where peers are
/// met, one at a time.
///
/// A port may tell its calls, in their order: one in memory does, one of real files need not. A call
/// that the port refuses with `File`, `Socket` or `NoPort` is told too, as refused. With `Memory` no
/// call is told: memory was wanting before anything was done. So it may tell the links that it
/// opened. What passes over a link is no call of the port: the link may tell its bytes.
pub trait Port {
    /// What is read from a peer and written to it.
    type Link: Read + Write + Drop;

    /// The calls so far, where the port tells them.
    ghost calls: { Self → Option (List Call) };

    /// The links that were opened so far, each as it was answered, where the port tells them.
    ghost links: { Self → Option (List Self.Link) };

    /// How many calls failed.
    ghost failures: { Self → ℕ };

    /// What is there under a name. Where there is a log, the text may be left out. `File` too where
    /// something else has the files open to write them.
    fn load(&mut self, name: &str) -> Result<Found, PortFault>
        ensures tells { Adds (calls self.old) (calls self.new) (load_told result name.now) }
        ensures links { links self.new ≡ links self.old }
        ensures device { failures self.new ≡ failures_after result (failures self.old) };

    /// Adds lines at the end of the log, which is made where there is none. Where it answers `File`
    /// any beginning of their bytes may have been added to a log that was there; one that was not is
    /// made with all of them or not at all. The text stays.
    fn append(&mut self, name: &str, lines: &LogLines) -> Result<(), PortFault>
        ensures tells { Adds (calls self.old) (calls self.new)
            (told result (call CallKind.Append name.now lines.now)) }
        ensures links { links self.new ≡ links self.old }
        ensures device { failures self.new ≡ failures_after result (failures self.old) };

    /// Makes these lines the whole log. Where it answers `File` the log is the old one or this one.
    /// The text stays.
    fn replace(&mut self, name: &str, lines: &LogLines) -> Result<(), PortFault>
        ensures tells { Adds (calls self.old) (calls self.new)
            (told result (call CallKind.Replace name.now lines.now)) }
        ensures links { links self.new ≡ links self.old }
        ensures device { failures self.new ≡ failures_after result (failures self.old) };

    /// Makes these bytes the whole text. Where it answers `File` the text may be cut short, or gone.
    /// The log stays.
    fn put_text(&mut self, name: &str, bytes: &[u8]) -> Result<(), PortFault>
        ensures tells { Adds (calls self.old) (calls self.new)
            (told result (call CallKind.PutText name.now bytes.now)) }
        ensures links { links self.new ≡ links self.old }
        ensures device { failures self.new ≡ failures_after result (failures self.old) };

    /// Opens a link to a peer that waits for one.
    fn connect(&mut self) -> Result<Self::Link, LinkFault>
        ensures tells { Adds (calls self.old) (calls self.new)
            (link_told result (link_call CallKind.Connect)) }
        ensures opens { IfOk result (λ link. Adds (links self.old) (links self.new) (link ∷ [])) }
        ensures links { OnErr result (links self.new ≡ links self.old) }
        ensures device { failures self.new ≡ failures_after_link result (failures self.old) };

    /// Waits for a peer, and opens the link that it asks for.
    fn accept(&mut self) -> Result<Self::Link, LinkFault>
        ensures tells { Adds (calls self.old) (calls self.new)
            (link_told result (link_call CallKind.Accept)) }
        ensures opens { IfOk result (λ link. Adds (links self.old) (links self.new) (link ∷ [])) }
        ensures links { OnErr result (links self.new ≡ links self.old) }
        ensures device { failures self.new ≡ failures_after_link result (failures self.old) };

    /// Ends the sending on a link: the peer finds the end there. What it sends can still be read.
    /// No byte passes over the link.
    fn finish(&mut self, link: &mut Self::Link) -> Result<(), LinkFault>
        ensures tells { Adds (calls self.old) (calls self.new)
            (link_told result (link_call CallKind.Finish)) }
        ensures links { links self.new ≡ links self.old }
        ensures bytes { KeepsBytes Self.Link.remaining Self.Link.contents link.old link.new }
        ensures device { failures self.new ≡ failures_after_link result (failures self.old) };

    /// How many calls failed: `File` and `Socket` add one, up to the greatest `u64`, and nothing
    /// else does.
    fn failures(&self) -> u64
        ensures { result ≡ failures self.now };
}
