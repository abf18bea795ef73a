//! A log that this port has open.
ghost use Rattle.std.specs.Prelude.{◌≡◌, ◌↔◌, ◌≤◌, IfOk, IsSome, OnErr, OnOk, length, true};
ghost use Rattle.mgr_port.specs.Folder.{IsQuiet};
ghost use Rattle.mgr_port.specs.Growth.{AddsFront, IsAdded, IsLonger, ShowsGrowth};
ghost use Rattle.mgr_port.specs.Notes.{IsLeftAt, MakesRoom};
ghost use Rattle.mgr_port.specs.Spares.{ChangesOnlyAt, IsOneOfMore, MayRemove};
ghost use Rattle.mgr_port.specs.Verdicts.{MayGrow};

use crate::folder::Folder;
use crate::locking::stands_for;
use crate::stamp::Stamp;
use crate::vacating::{make_way, remove_second_name};
use mg_files::LogLines;
use std::io;
use std::io::ErrorKind;

/// How many bytes of a log's end are remembered.
pub(crate) const END: usize = 256;

/// A log as this port read or wrote it last. It is locked for as long as it is open.
#[derive(Drop)]
pub(crate) struct Log<T> {
    pub(crate) file: T,
    pub(crate) left: LeftLog,
}

/// What a log was when this port left it.
#[derive(Clone, Copy)]
pub struct LeftLog {
    pub(crate) stamp: Stamp,
    end: End,
}

/// What is found of a log that was left: the file that has its name; how the open one ends where it
/// was left, if it is that long; and whether it ends in a newline now.
#[derive(Clone, Copy)]
pub(crate) struct FoundLog {
    stamp: Stamp,
    end: Option<End>,
    ends_in_newline: bool,
}

/// The last bytes of a log.
#[derive(Clone, Copy, PartialEq, Eq)]
pub struct End {
    pub(crate) bytes: [u8; END],
    pub(crate) length: usize,
}

impl<T: Drop> Log<T> {
    /// A log that was read up to such a length. What another program put behind it meanwhile was not.
    #[tactic(auto, using(crate::proofs::FolderLaws::only_none, crate::proofs::GrowthLaws::quiet_look_at, crate::proofs::GrowthLaws::quiet_look_at_end))]
    pub(crate) fn read_to<F: Folder<File = T>>(
        folder: &mut F,
        file: T,
        length: u64,
    ) -> io::Result<Log<T>>
        ensures file { IfOk result (λ log. log.file ≡ file) }
        ensures left { IfOk result (λ log. IsLeftAt (F.file_of file) log.left length
            (F.steps folder.old) (F.steps folder.new)) }
        ensures quiet { IsQuiet (F.steps folder.old) (F.steps folder.new) }
    {
        let mut stamp = folder.look_at(&file)?.stamp;
        stamp.length = length;
        match folder.end_of(&file, length)? {
            Some(end) => Ok(Log {
                file,
                left: LeftLog { stamp, end },
            }),
            None => Err(io::Error::from(ErrorKind::UnexpectedEof)),
        }
    }

    /// Takes another name from it, if it has that beside its own: one that was killed when it gave the
    /// log its name may have left it both.
    pub(crate) fn give_up<F: Folder<File = T>>(&self, folder: &mut F, path: &str)
        ensures { MayRemove IsOneOfMore (F.file_of self.now.file) path.now
            (F.steps folder.old) (F.steps folder.new) }
    {
        let _ = remove_second_name(folder, path, &self.file);
    }

    /// Takes a path from it, at which the next log is to stand: another name of it goes, and if it is
    /// its only one what it has is kept first.
    pub(crate) fn make_room<F: Folder<File = T>>(
        &self,
        folder: &mut F,
        path: &str,
    ) -> io::Result<()>
        ensures made { OnOk result (MakesRoom (F.file_of self.now.file) path.now
            (F.steps folder.old) (F.steps folder.new)) }
        ensures only { ChangesOnlyAt path.now (F.steps folder.old) (F.steps folder.new) }
    {
        remove_second_name(folder, path, &self.file)?;
        if stands_for(folder, path, &self.file)? {
            make_way(folder, path)?;
        }
        Ok(())
    }

    /// Adds lines at the end, and waits until they are on the device. Nothing is written if the path
    /// stands for another file, or the log is not as it was left and at most something whole behind
    /// it. It is looked at after that, too: what became of it meanwhile may have lost the lines.
    #[tactic(auto, using(crate::proofs::GrowthLaws::adds_none, crate::proofs::GrowthLaws::adds_front, crate::proofs::GrowthLaws::adds_all))]
    pub(crate) fn append<F: Folder<File = T>>(
        &mut self,
        folder: &mut F,
        path: &str,
        lines: &LogLines,
    ) -> io::Result<()>
        ensures added { OnOk result (IsAdded (F.file_of self.old.file) path.now self.old.left
            lines.now self.new.left (F.steps folder.old) (F.steps folder.new)) }
        ensures begun { OnErr result (AddsFront (F.file_of self.old.file) lines.now
            (F.steps folder.old) (F.steps folder.new)) }
        ensures file { self.new.file ≡ self.old.file }
        ensures same { OnErr result (self.new.left ≡ self.old.left) }
    {
        check_growth(folder, path, &self.file, &self.left)?;
        folder.add_lines(path, &self.file, &self.left, lines)?;
        self.left = left_longer(folder, path, &self.file, &self.left)?;
        Ok(())
    }
}

/// `NotFound` unless the path stands for the log, which has what it had, and at most lines behind it.
#[tactic(auto, using(crate::proofs::FolderLaws::only_none, crate::proofs::FolderLaws::quiet_follow, crate::proofs::GrowthLaws::quiet_end, crate::proofs::GrowthLaws::quiet_ends))]
fn check_growth<F: Folder>(
    folder: &mut F,
    path: &str,
    log: &F::File,
    left: &LeftLog,
) -> io::Result<()>
    ensures shown { OnOk result
        (ShowsGrowth (F.file_of log.now) path.now left.now
        (F.steps folder.old) (F.steps folder.new)) }
    ensures quiet { IsQuiet (F.steps folder.old) (F.steps folder.new) }
{
    let Some(there) = folder.follow(path)?.found else {
        return Err(io::Error::from(ErrorKind::NotFound));
    };
    let found = FoundLog {
        stamp: there.stamp,
        end: folder.end_of(log, left.stamp.length)?,
        ends_in_newline: folder.ends_in_newline(log, there.stamp.length)?,
    };
    if !may_grow(left, &found) {
        return Err(io::Error::from(ErrorKind::NotFound));
    }
    Ok(())
}

/// What a log is left as, once the lines that were added are on the device.
#[tactic(auto, using(crate::proofs::FolderLaws::only_none, crate::proofs::GrowthLaws::quiet_sync, crate::proofs::GrowthLaws::quiet_sync_look_at))]
fn left_longer<F: Folder>(
    folder: &mut F,
    path: &str,
    log: &F::File,
    left: &LeftLog,
) -> io::Result<LeftLog>
    ensures longer { IfOk result (λ longer. IsLonger (F.file_of log.now) path.now left.now longer
        (F.steps folder.old) (F.steps folder.new)) }
    ensures quiet { IsQuiet (F.steps folder.old) (F.steps folder.new) }
{
    folder.sync(log)?;
    let stamp = folder.look_at(log)?.stamp;
    let end = folder.end_of(log, stamp.length)?;
    check_growth(folder, path, log, left)?;
    match end {
        Some(end) if left.stamp.length < stamp.length => Ok(LeftLog { stamp, end }),
        _ => Err(io::Error::from(ErrorKind::NotFound)),
    }
}

/// Whether lines may be put behind a log that was left, by what is found of it.
fn may_grow(left: &LeftLog, found: &FoundLog) -> bool
    ensures { (result ≡ true) ↔ MayGrow left.now found.now }
{
    if !found.stamp.is_of_the_file(&left.stamp) {
        return false;
    }
    if found.stamp.length < left.stamp.length {
        return false;
    }
    if found.end != Some(left.end) {
        return false;
    }
    found.stamp.length == left.stamp.length || found.ends_in_newline
}

impl End {
    /// The end of a file that begins with so many of these bytes. None if these are fewer.
    pub fn of_bytes(file: &[u8], count: u64) -> Option<End>
        ensures { IsSome result ↔ (count ≤ length file.now) }
    {
        let length = usize::try_from(count).ok()?;
        let front = file.get(..length)?;
        let count = length.min(END);
        let mut bytes = [0u8; END];
        bytes[..count].copy_from_slice(&front[length - count..]);
        Some(End {
            bytes,
            length: count,
        })
    }
}
