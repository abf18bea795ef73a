//! A log that is read whole, and written anew beside.
ghost use Rattle.std.specs.Prelude.{◌≡◌, ℕ, None, Some, IfOk, OnErr, OnOk, true, if◌then◌else◌, string_bytes};
ghost use Rattle.mgr_port.specs.Folder.{IsIdle, IsQuiet};
ghost use Rattle.mgr_port.specs.Locks.{IsHeldEmpty, ShowsPlain};
ghost use Rattle.mgr_port.specs.Rewriting.{EndsLine, IsBeside, KeepsRefused, LeavesRead, MakesNextLog, NamesRead};
ghost use Rattle.mgr_port.specs.Rewriting.{OpensRefused, OpensToRewrite};
ghost use Rattle.mgr_port.specs.Spares.{ChangesNoName, FitsAt, FitsTaken, PutsOnlyAt, PutsOnlyBeside};

use crate::files::take_mode;
use crate::folder::{Folder, Opening};
use crate::locking::{open_again, open_beside, take_beside};
use crate::names::Paths;
use crate::staged::{Old, Staged, name_written};
use crate::vacating::{remove_open, remove_second_name};
use std::fs::File;
use std::io;
use std::io::{ErrorKind, Read};

/// A log that is read. It is locked for as long as it is open.
#[derive(Drop)]
pub struct OpenLog<T> {
    file: T,
    /// How many bytes were read.
    read: u64,
    /// Whether anything of it is refused: then a text that was put beside it may have what the log in
    /// its place has not.
    refused: bool,
}

impl Read for OpenLog<File> {
    ghost use Rattle.std.specs.Prelude.{None};

    ghost remaining = { λ _. None };

    fn read(&mut self, buf: &mut [u8]) -> io::Result<usize> {
        let count = self.file.read(buf)?;
        self.read = self.read.saturating_add(count as u64);
        Ok(count)
    }
}

impl<T: Drop> OpenLog<T> {
    /// The log of a path, locked. `NotFound` where there is none, and `WouldBlock` where something
    /// else has it locked.
    #[tactic(auto, using(crate::proofs::FolderLaws::quiet_then_open_to_write))]
    pub(crate) fn at<F: Folder<File = T>>(folder: &mut F, path: &str) -> io::Result<OpenLog<T>>
        ensures opened { IfOk result (λ log. OpensToRewrite (F.file_of log.file) path.now log.read
            log.refused (F.steps folder.new)) }
        ensures quiet { IsQuiet (F.steps folder.old) (F.steps folder.new) }
    {
        let Some(file) = open_again(folder, path, true)? else {
            return Err(io::Error::from(ErrorKind::NotFound));
        };
        drop(folder.open(path, Opening::Write)?);
        Ok(OpenLog {
            file,
            read: 0,
            refused: false,
        })
    }

    /// How much later a log that takes its place is dated: if nothing of it is refused, not at all, so
    /// that a text that was put beside it is known. Else that text is nobody's, and is kept when
    /// another takes its name.
    fn later(&self) -> Option<u64>
        ensures { result ≡ (if self.now.refused then None else Some 0) }
    {
        if self.refused {
            return None;
        }
        Some(0)
    }

    /// Puts bytes at the end of the file of what was refused of a log, and waits until they are on the
    /// device under its name. Where it is not there it is made, with the owner and the rights of the
    /// log. Who has the log open has this file for himself.
    pub(crate) fn keep_refused<F: Folder<File = T>>(
        &mut self,
        folder: &mut F,
        path: &str,
        bytes: &[u8],
    ) -> io::Result<()>
        ensures refused { self.new.refused ≡ true }
        ensures file { self.new.file ≡ self.old.file }
        ensures read { self.new.read ≡ self.old.read }
        ensures kept { OnOk result (KeepsRefused (F.file_of self.old.file) path.now bytes.now
            (F.steps folder.old) (F.steps folder.new)) }
        ensures only { (file : ℕ)
            × PutsOnlyBeside file path.now (F.steps folder.old) (F.steps folder.new) }
    {
        self.refused = true;
        let refused = open_refused(folder, path, &self.file)?;
        end_line(folder, &refused)?;
        folder.write(&refused, bytes)?;
        folder.sync(&refused)?;
        // One that was killed may have left it without a name on the device.
        folder.sync_folder(path)
    }

    /// An empty file beside the log, locked, with the owner and the rights of the log.
    pub(crate) fn make_next<F: Folder<File = T>>(&self, folder: &mut F, path: &str) -> io::Result<T>
        ensures made { IfOk result (λ next. MakesNextLog (F.file_of next) (F.file_of self.now.file)
            path.now (F.steps folder.old) (F.steps folder.new)) }
        ensures only { OnErr result (FitsTaken (λ file. IsHeldEmpty file path.now) path.now
            (F.steps folder.old) (F.steps folder.new)) }
    {
        // One that was killed when it gave the log its name may have left it this one too.
        let _ = remove_second_name(folder, path, &self.file);
        let next = take_beside(folder, path)?;
        let like = folder.look_at(&self.file)?;
        take_mode(folder, &next, like)?;
        Ok(next)
    }

    /// Gives what was written beside the log the name of the log, which is kept, and waits until that
    /// is on the device. Where a step before the last fails, there is no file beside any more.
    pub(crate) fn name_next<F: Folder<File = T>>(
        &self,
        folder: &mut F,
        paths: &Paths,
        next: T,
    ) -> io::Result<()>
        ensures named { OnOk result (NamesRead (F.file_of next) (F.file_of self.now.file)
            (string_bytes paths.now.next_log)
            (string_bytes paths.now.log) self.now.read self.now.refused
            (F.steps folder.old) (F.steps folder.new)) }
        ensures left { LeavesRead (F.file_of next) (F.file_of self.now.file)
            (string_bytes paths.now.next_log)
            (string_bytes paths.now.log) self.now.read self.now.refused
            (F.steps folder.old) (F.steps folder.new) }
        ensures only { PutsOnlyAt (F.file_of next) (string_bytes paths.now.next_log)
            (string_bytes paths.now.log) (F.steps folder.old) (F.steps folder.new) }
    {
        let staged = Staged {
            path: paths.next_log.as_str(),
            name: paths.log.as_str(),
            later: self.later(),
            old: Old::Read(self.read),
        };
        match name_written(folder, &next, Some(&self.file), staged) {
            Ok(named) => named.settled(),
            Err(error) => {
                let _ = remove_open(folder, staged.path, &next);
                Err(error)
            }
        }
    }
}

/// Whether a plain file stands under a path itself. `InvalidInput` if something else does, a link
/// too.
#[tactic(auto, using(crate::proofs::FolderLaws::only_none, crate::proofs::FolderLaws::idle_look))]
fn is_plain_there<F: Folder>(folder: &mut F, path: &str) -> io::Result<bool>
    ensures shown { IfOk result (ShowsPlain path.now (F.steps folder.old) (F.steps folder.new)) }
    ensures idle { IsIdle (F.steps folder.old) (F.steps folder.new) }
{
    match folder.look(path)?.found {
        None => Ok(false),
        Some(look) if look.is_plain => Ok(true),
        Some(_) => Err(io::Error::from(ErrorKind::InvalidInput)),
    }
}

/// Opens the file of what was refused of a log, or makes it, with the owner and the rights of the log.
#[tactic(auto, unfolding(crate::specs::Rewriting::OpensRefused))]
fn open_refused<F: Folder>(folder: &mut F, path: &str, log: &F::File) -> io::Result<F::File>
    ensures opened { IfOk result
        (λ file. OpensRefused (F.file_of file) (F.file_of log.now) path.now
        (F.steps folder.old) (F.steps folder.new)) }
    ensures fits { IfOk result
        (λ file. FitsAt (F.file_of file) path.now (F.steps folder.old) (F.steps folder.new)) }
    ensures only { OnErr result (FitsTaken (λ file. IsBeside file path.now) path.now
        (F.steps folder.old) (F.steps folder.new)) }
{
    if is_plain_there(folder, path)? {
        return open_beside(folder, path);
    }
    let refused = open_beside(folder, path)?;
    let like = folder.look_at(log)?;
    take_mode(folder, &refused, like)?;
    Ok(refused)
}

/// Ends the last line of a file that was cut off, so that nothing is read as a part of it.
#[tactic(auto, unfolding(crate::specs::Rewriting::EndsLine))]
fn end_line<F: Folder>(folder: &mut F, file: &F::File) -> io::Result<()>
    ensures ended { OnOk result
        (EndsLine (F.file_of file.now) (F.steps folder.old) (F.steps folder.new)) }
    ensures only { ChangesNoName (F.file_of file.now) (F.steps folder.old) (F.steps folder.new) }
{
    let length = folder.look_at(file)?.stamp.length;
    if length == 0 {
        return Ok(());
    }
    if folder.ends_in_newline(file, length)? {
        return Ok(());
    }
    folder.write(file, b"\n")
}
