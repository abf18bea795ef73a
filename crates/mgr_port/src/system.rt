//! The folders of the machine.
ghost use Rattle.std.specs.Prelude.{◌≡◌, ◌↔◌, Err, IfOk};
ghost use Rattle.std.specs.declared.fs.TryLockError.TheVariants.{WouldBlock};
ghost use Rattle.mgr_port.specs.declared.folder.Lock.TheVariants as Lock;

use crate::files::OWN;
use crate::folder::{Folder, Lock, Opening};
use crate::log::{END, End, LeftLog};
use crate::patient::Patient;
use crate::spare::{Look, Owner, Spare, Standing};
use mg_files::LogLines;
use rga_exchange::{Counted, SendFault};
use std::alloc::Global;
use std::fs::{File, Metadata, OpenOptions, Permissions, TryLockError};
use std::io::{ErrorKind, Read, Write};
use std::os::unix::fs::{FileExt, OpenOptionsExt, PermissionsExt, fchown};
use std::rt::Files;
use std::time::Duration;
use std::{fs, io};

/// The folders of the machine. They tell no steps: what a file keeps, no clause can name.
#[derive(Clone, Copy)]
pub(crate) struct System<'r, R> {
    pub(crate) rt: &'r R,
}

/// What stands under a path, by what was answered to a look.
fn standing(path: &str, answer: io::Result<Metadata>) -> io::Result<Standing<'_>>
    ensures { IfOk result (λ standing. standing.path.now ≡ path.now) }
{
    match answer {
        Ok(metadata) => Ok(Standing {
            path,
            found: Some(Look::of(&metadata)),
        }),
        Err(error) if error.kind() == ErrorKind::NotFound => Ok(Standing { path, found: None }),
        Err(error) => Err(error),
    }
}

/// Who has a file locked, by what was answered to a try.
fn lock_of(answer: Result<(), TryLockError>) -> Lock
    ensures { (result ≡ Lock.Others) ↔ (answer ≡ Err WouldBlock) }
{
    match answer {
        Ok(()) => Lock::Own,
        Err(TryLockError::WouldBlock) => Lock::Others,
        Err(TryLockError::Error(_)) => Lock::Unknown,
    }
}

impl<'r, R: Files<File = File> + AllocGlobal> Folder for System<'r, R> {
    ghost use Rattle.std.specs.Prelude.{None};

    type File = File;

    ghost steps = { λ _. None };

    ghost file_of = { λ _. 0 };

    fn alloc(&self) -> Global {
        self.rt.alloc()
    }

    fn look<'p>(&mut self, path: &'p str) -> io::Result<Standing<'p>> {
        standing(path, fs::symlink_metadata(self.rt, path))
    }

    fn follow<'p>(&mut self, path: &'p str) -> io::Result<Standing<'p>> {
        standing(path, fs::metadata(self.rt, path))
    }

    fn resolve(&mut self, path: &str) -> io::Result<String> {
        Ok(fs::canonicalize(self.rt, path)?.into_string())
    }

    fn look_at(&mut self, file: &File) -> io::Result<Look> {
        Ok(Look::of(&file.metadata()?))
    }

    fn open(&mut self, path: &str, opening: Opening) -> io::Result<File> {
        let mut options = OpenOptions::new();
        match opening {
            Opening::Read => options.read(true),
            Opening::Write => options.write(true),
            Opening::Add => options.read(true).append(true),
            Opening::Beside => options.read(true).append(true).create(true).mode(OWN),
            Opening::New(mode) => options.read(true).write(true).create_new(true).mode(mode),
        };
        options.open(self.rt, path)
    }

    fn lock(&mut self, file: &File) -> io::Result<Lock> {
        Ok(lock_of(file.try_lock()))
    }

    fn end_of(&mut self, file: &File, length: u64) -> io::Result<Option<End>> {
        let mut bytes = [0u8; END];
        let count = length.min(END as u64) as usize;
        let from = length.saturating_sub(END as u64);
        match file.read_exact_at(&mut bytes[..count], from) {
            Ok(()) => Ok(Some(End {
                bytes,
                length: count,
            })),
            Err(_) => Ok(None),
        }
    }

    fn ends_in_newline(&mut self, file: &File, length: u64) -> io::Result<bool> {
        let mut last = [0u8; 1];
        match file.read_exact_at(&mut last, length.saturating_sub(1)) {
            Ok(()) => Ok(last[0] == b'\n'),
            Err(_) => Ok(false),
        }
    }

    fn add_lines(
        &mut self,
        _path: &str,
        log: &File,
        _left: &LeftLog,
        lines: &LogLines,
    ) -> io::Result<()> {
        self.write_lines(log, lines)
    }

    fn empty(&mut self, file: &File) -> io::Result<()> {
        file.set_len(0)
    }

    fn write(&mut self, mut file: &File, bytes: &[u8]) -> io::Result<()> {
        file.write_all(bytes)
    }

    /// Where memory is wanting, nothing is written.
    fn write_lines(&mut self, file: &File, lines: &LogLines) -> io::Result<()> {
        let mut writer = Counted::new(Patient::new(file));
        let written = lines.write_to(&mut writer);
        let failed = writer.into_inner().failed;
        match written {
            Ok(()) => Ok(()),
            Err(SendFault::Write) => Err(io::Error::from(failed.unwrap_or(ErrorKind::Other))),
            Err(SendFault::Memory(memory)) => Err(io::Error::from(memory)),
        }
    }

    fn set_mode(&mut self, file: &File, mode: u32) -> io::Result<()> {
        file.set_permissions(Permissions::from_mode(mode & 0o7777))
    }

    fn give_to(&mut self, file: &File, owner: Owner) -> io::Result<()> {
        fchown(file, Some(owner.user), Some(owner.group))
    }

    fn date(&mut self, file: &File, of: &File, later: u64) -> io::Result<()> {
        let changed = of.metadata()?.modified()?;
        match changed.checked_add(Duration::from_nanos(later)) {
            Some(time) => file.set_modified(time),
            None => Err(io::Error::from(ErrorKind::InvalidInput)),
        }
    }

    fn sync(&mut self, file: &File) -> io::Result<()> {
        file.sync_all()
    }

    fn sync_folder(&mut self, path: &str) -> io::Result<()> {
        let folder = match path.rsplit_once('/') {
            Some(("", _)) => "/",
            Some((folder, _)) => folder,
            None => ".",
        };
        fs::open(self.rt, folder)?.sync_all()
    }

    fn read_all(&mut self, mut file: &File) -> io::Result<Vec<u8>> {
        let mut bytes = Vec::new(self.rt.alloc());
        file.read_to_end(&mut bytes)?;
        Ok(bytes)
    }

    fn read(&mut self, path: &str) -> io::Result<Vec<u8>> {
        fs::read(self.rt, path)
    }

    fn link(&mut self, path: &str, name: &str) -> io::Result<()> {
        fs::hard_link(self.rt, path, name)
    }

    fn make(&mut self, name: &str, bytes: &[u8]) -> io::Result<()> {
        let file = self.open(name, Opening::New(OWN))?;
        self.write(&file, bytes)?;
        self.sync(&file)?;
        self.sync_folder(name)
    }

    fn remove(&mut self, spare: Spare<'_>) -> io::Result<()> {
        fs::remove_file(self.rt, spare.path())
    }

    fn rename(&mut self, path: &str, spare: Spare<'_>) -> io::Result<()> {
        fs::rename(self.rt, path, spare.path())
    }

    fn overwrite(&mut self, spare: Spare<'_>) -> io::Result<File> {
        fs::create(self.rt, spare.path())
    }
}
