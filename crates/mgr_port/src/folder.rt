//! The steps by which a folder is looked at and changed.
ghost use Rattle.std.specs.Prelude.{◌≡◌, IfOk, ℕ, string_bytes};
ghost use Rattle.mgr_port.specs.Folder.{History, Looks, Follows, Resolves, LooksAt, Opens, Locks, Ends, EndsInNewline};
ghost use Rattle.mgr_port.specs.Folder.{Empties, SetsMode, GivesTo, Dates, Syncs, SyncsFolder, ReadsAll, Reads, Links};
ghost use Rattle.mgr_port.specs.Folder.{Makes, Removes, Renames, Overwrites, Steps, Writes};
ghost use Rattle.mgr_port.specs.Growth.{MayAdd};
ghost use Rattle.mgr_port.specs.Spares.{MayBeGiven, MayBeOverwritten, MayGo, path_of};

use crate::log::{End, LeftLog};
use crate::spare::{Look, Owner, Spare, Standing};
use mg_files::LogLines;
use std::alloc::Global;
use std::io;

/// How a file is opened.
#[derive(Clone, Copy, PartialEq, Eq)]
pub enum Opening {
    /// To be read.
    Read,
    /// To be written. Nothing of it changes by that.
    Write,
    /// To be read, and to be added to at its end.
    Add,
    /// The same. If it is not there it is made, and only its owner may read it.
    Beside,
    /// As a new one, to be read and written. It gets what the user's mask leaves of this mode.
    New(u32),
}

/// Who has a file locked, once it was tried.
#[derive(Clone, Copy, PartialEq, Eq)]
pub enum Lock {
    /// This port, as long as the file is open.
    Own,
    /// Something else.
    Others,
    /// Nobody can be known to: the file system has no locks.
    Unknown,
}

/// A folder, whose files other programs change too. It may tell what it was asked and what it
/// answered. A path goes, or is given to another file, only as a `Spare`, and once the last steps show
/// that nothing of it is lost.
pub trait Folder {
    /// A file that is open.
    type File: Drop;

    /// The steps so far, the last one first, where they are told.
    ghost steps: { Self → History };

    /// Which file an open one is.
    ghost file_of: { Self.File → ℕ };

    /// The memory that paths are made in.
    fn alloc(&self) -> Global;

    /// What stands under a path itself.
    fn look<'p>(&mut self, path: &'p str) -> io::Result<Standing<'p>>
        ensures path { IfOk result (λ standing. standing.path.now ≡ path.now) }
        ensures step { Steps result (λ standing. Looks path.now standing.found)
            (steps self.old) (steps self.new) };

    /// What a path leads to.
    fn follow<'p>(&mut self, path: &'p str) -> io::Result<Standing<'p>>
        ensures path { IfOk result (λ standing. standing.path.now ≡ path.now) }
        ensures step { Steps result (λ standing. Follows path.now standing.found)
            (steps self.old) (steps self.new) };

    /// The path, of which no part is a link, of what a path leads to.
    fn resolve(&mut self, path: &str) -> io::Result<String>
        ensures step { Steps result (λ target. Resolves path.now (string_bytes target))
            (steps self.old) (steps self.new) };

    /// What an open file is.
    fn look_at(&mut self, file: &Self::File) -> io::Result<Look>
        ensures step { Steps result (λ look. LooksAt (file_of file.now) look)
            (steps self.old) (steps self.new) };

    /// Opens the file that a path leads to.
    fn open(&mut self, path: &str, opening: Opening) -> io::Result<Self::File>
        ensures step { Steps result (λ file. Opens (file_of file) path.now opening)
            (steps self.old) (steps self.new) };

    /// Tries to lock an open file.
    fn lock(&mut self, file: &Self::File) -> io::Result<Lock>
        ensures step { Steps result (Locks (file_of file.now)) (steps self.old) (steps self.new) };

    /// How an open file ends at such a length. None if it is not that long, or can't be read.
    fn end_of(&mut self, file: &Self::File, length: u64) -> io::Result<Option<End>>
        ensures step { Steps result (Ends (file_of file.now) length)
            (steps self.old) (steps self.new) };

    /// Whether the last byte of an open file of such a length is a newline. No, if there is none, or
    /// it can't be read.
    fn ends_in_newline(&mut self, file: &Self::File, length: u64) -> io::Result<bool>
        ensures step { Steps result (EndsInNewline (file_of file.now) length)
            (steps self.old) (steps self.new) };

    /// Puts lines at the end of a log that is open and was left so, and to which lines may be added
    /// by what was seen of it last, under this path. If it fails, a beginning of them may be there.
    fn add_lines(
        &mut self,
        path: &str,
        log: &Self::File,
        left: &LeftLog,
        lines: &LogLines,
    ) -> io::Result<()>
        requires { MayAdd (file_of log.now) path.now left.now (steps self.old) }
        ensures step { Writes result (file_of log.now) lines.now
            (steps self.old) (steps self.new) };

    /// Leaves nothing in an open file.
    fn empty(&mut self, file: &Self::File) -> io::Result<()>
        ensures step { Steps result (λ _. Empties (file_of file.now))
            (steps self.old) (steps self.new) };

    /// Puts bytes at the end of an open file. If it fails, a beginning of them may be there.
    fn write(&mut self, file: &Self::File, bytes: &[u8]) -> io::Result<()>
        ensures step { Writes result (file_of file.now) bytes.now
            (steps self.old) (steps self.new) };

    /// The same of lines.
    fn write_lines(&mut self, file: &Self::File, lines: &LogLines) -> io::Result<()>
        ensures step { Writes result (file_of file.now) lines.now
            (steps self.old) (steps self.new) };

    /// Gives an open file these permissions, without those of its kind.
    fn set_mode(&mut self, file: &Self::File, mode: u32) -> io::Result<()>
        ensures step { Steps result (λ _. SetsMode (file_of file.now) mode)
            (steps self.old) (steps self.new) };

    /// Gives an open file this owner and group.
    fn give_to(&mut self, file: &Self::File, owner: Owner) -> io::Result<()>
        ensures step { Steps result (λ _. GivesTo (file_of file.now) owner)
            (steps self.old) (steps self.new) };

    /// Dates an open file by when another one was changed, and so many nanoseconds later.
    fn date(&mut self, file: &Self::File, of: &Self::File, later: u64) -> io::Result<()>
        ensures step { Steps result (λ _. Dates (file_of file.now) (file_of of.now) later)
            (steps self.old) (steps self.new) };

    /// Waits until an open file is on the device.
    fn sync(&mut self, file: &Self::File) -> io::Result<()>
        ensures step { Steps result (λ _. Syncs (file_of file.now))
            (steps self.old) (steps self.new) };

    /// Waits until the names in the folder of a path are on the device.
    fn sync_folder(&mut self, path: &str) -> io::Result<()>
        ensures step { Steps result (λ _. SyncsFolder path.now) (steps self.old) (steps self.new) };

    /// The bytes of an open file that were not read yet.
    fn read_all(&mut self, file: &Self::File) -> io::Result<Vec<u8>>
        ensures step { Steps result (λ bytes. ReadsAll (file_of file.now) bytes.items)
            (steps self.old) (steps self.new) };

    /// The bytes of the file that a path leads to.
    fn read(&mut self, path: &str) -> io::Result<Vec<u8>>
        ensures step { Steps result (λ bytes. Reads path.now bytes.items)
            (steps self.old) (steps self.new) };

    /// Gives what stands under a path another name. `AlreadyExists` if something has that.
    fn link(&mut self, path: &str, name: &str) -> io::Result<()>
        ensures step { Steps result (λ _. Links path.now name.now)
            (steps self.old) (steps self.new) };

    /// Makes a file of these bytes, which only its owner may read, and waits until it is on the
    /// device under its name. `AlreadyExists` if something has that.
    fn make(&mut self, name: &str, bytes: &[u8]) -> io::Result<()>
        ensures step { Steps result (λ _. Makes name.now bytes.now)
            (steps self.old) (steps self.new) };

    /// Removes a path.
    fn remove(&mut self, spare: Spare<'_>) -> io::Result<()>
        requires { MayGo (path_of spare) (steps self.old) }
        ensures step { Steps result (λ _. Removes (path_of spare.entry))
            (steps self.old) (steps self.new) };

    /// Gives a path to the file of another path, which has that no more.
    fn rename(&mut self, path: &str, spare: Spare<'_>) -> io::Result<()>
        requires { MayBeGiven (path_of spare) (steps self.old) }
        ensures step { Steps result (λ _. Renames path.now (path_of spare.entry))
            (steps self.old) (steps self.new) };

    /// Opens the file that a path leads to, with nothing in it.
    fn overwrite(&mut self, spare: Spare<'_>) -> io::Result<Self::File>
        requires outlasts { MayBeOverwritten spare }
        requires given { MayBeGiven (path_of spare) (steps self.old) }
        ensures step { Steps result (λ file. Overwrites (file_of file) (path_of spare.entry))
            (steps self.old) (steps self.new) };
}
