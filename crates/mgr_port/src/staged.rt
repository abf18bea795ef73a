//! A file that is written whole beside another, and then takes its name.
ghost use Rattle.std.specs.Option.{option_map};
ghost use Rattle.std.specs.Prelude.{◌≡◌, ◌∷◌, [], ℕ, IfOk, OnOk, OnErr};
ghost use Rattle.mgr_port.specs.Disk.{Keeps, Syncs, TakesName, last_steps, steps_to, unnamed_steps};
ghost use Rattle.mgr_port.specs.Folder.{IsIdle};
ghost use Rattle.mgr_port.specs.Locks.{StandsAsRead};
ghost use Rattle.mgr_port.specs.declared.keeping.Keeping.TheVariants as Keeping;
ghost use Rattle.mgr_port.specs.Spares.{MayBeOverwritten, SparesText, path_of};
ghost use Rattle.mgr_port.specs.Staging.{DoesAll, IsSettled, MayDate, StopsBefore, SyncsDated};

use crate::folder::Folder;
use crate::keeping::{Keeping, keep, spare_for};
use crate::spare::Spare;
use crate::stamp::Stamp;
use crate::vacating::give_free_name;
use mg_files::LogLines;
use std::io;
use std::io::ErrorKind;

/// A file beside a log or a text, whose name it is to take.
#[derive(Clone, Copy)]
pub struct Staged<'a> {
    pub path: &'a str,
    pub name: &'a str,
    /// How many nanoseconds later than a log it is dated, if it is.
    pub later: Option<u64>,
    pub old: Old<'a>,
}

/// What stands under the name that a file is to take.
#[derive(Clone, Copy)]
pub enum Old<'a> {
    /// Nothing. The file takes no name that something else has got meanwhile.
    Nothing,
    /// A log.
    Log,
    /// A text, if this port left it what it was then, and what is to take its place. It need not be
    /// kept if nothing of it is lost.
    Text(Option<Stamp>, &'a [u8]),
    /// A log of which so many bytes were read. Nothing gets the name of one that is not as it was read.
    Read(u64),
}

/// A file that has its name.
#[derive(Drop)]
pub enum Named {
    /// The name is on the device.
    Settled,
    /// It may not be, for this.
    Unsettled(io::Error),
}

impl Named {
    /// Whether the name is on the device.
    pub(crate) fn settled(self) -> io::Result<()>
        ensures { OnOk result (IsSettled self) }
    {
        match self {
            Named::Settled => Ok(()),
            Named::Unsettled(error) => Err(error),
        }
    }
}

/// Makes these bytes the whole of a file beside, and gives it the name. What stood there is kept where
/// anything of it would be lost. Whenever the machine stops, the file of the name is the old one or the
/// new one, whole (`laws`). `io::Error` is that of the step that failed, and the old file has the name
/// then; of the last step it is in `Unsettled`. The log is the one by which it is dated, or that was
/// read.
#[tactic(auto, using(crate::proofs::FolderLaws::only_none, crate::proofs::StagingLaws::stops_here, crate::proofs::StagingLaws::stops_unnamed))]
pub fn put_whole<F: Folder>(
    folder: &mut F,
    next: &F::File,
    log: Option<&F::File>,
    staged: Staged<'_>,
    bytes: &[u8],
) -> io::Result<Named>
    ensures named { IfOk result (λ named. DoesAll (F.file_of next.now)
        (option_map (λ l. F.file_of l.now) log.entry) staged.entry (steps_to named bytes.now)
        (F.steps folder.old) (F.steps folder.new)) }
    ensures unnamed { OnErr result (StopsBefore (F.file_of next.now)
        (option_map (λ l. F.file_of l.now) log.entry) staged.entry (unnamed_steps bytes.now)
        (F.steps folder.old) (F.steps folder.new)) }
{
    folder.empty(next)?;
    folder.write(next, bytes)?;
    name_written(folder, next, log, staged)
}

/// Makes these lines the whole of it, as `put_whole` does bytes.
#[tactic(auto, using(crate::proofs::FolderLaws::only_none, crate::proofs::StagingLaws::stops_here, crate::proofs::StagingLaws::stops_unnamed))]
pub(crate) fn put_log<F: Folder>(
    folder: &mut F,
    next: &F::File,
    log: Option<&F::File>,
    staged: Staged<'_>,
    lines: &LogLines,
) -> io::Result<Named>
    ensures named { IfOk result (λ named. DoesAll (F.file_of next.now)
        (option_map (λ l. F.file_of l.now) log.entry) staged.entry (steps_to named lines.now)
        (F.steps folder.old) (F.steps folder.new)) }
    ensures unnamed { OnErr result (StopsBefore (F.file_of next.now)
        (option_map (λ l. F.file_of l.now) log.entry) staged.entry (unnamed_steps lines.now)
        (F.steps folder.old) (F.steps folder.new)) }
{
    folder.empty(next)?;
    folder.write_lines(next, lines)?;
    name_written(folder, next, log, staged)
}

/// Gives the file beside the name, once all that was written to it is on the device.
#[tactic(auto, using(crate::proofs::StagingLaws::stops_here))]
pub(crate) fn name_written<F: Folder>(
    folder: &mut F,
    next: &F::File,
    log: Option<&F::File>,
    staged: Staged<'_>,
) -> io::Result<Named>
    ensures named { IfOk result (λ named. DoesAll (F.file_of next.now)
        (option_map (λ l. F.file_of l.now) log.entry) staged.entry (last_steps named)
        (F.steps folder.old) (F.steps folder.new)) }
    ensures unnamed { OnErr result (StopsBefore (F.file_of next.now)
        (option_map (λ l. F.file_of l.now) log.entry) staged.entry (Syncs ∷ Keeps ∷ [])
        (F.steps folder.old) (F.steps folder.new)) }
{
    sync_dated(folder, next, log, staged.later)?;
    give_name(folder, log, staged)?;
    match folder.sync_folder(staged.name) {
        Ok(()) => Ok(Named::Settled),
        Err(error) => Ok(Named::Unsettled(error)),
    }
}

/// Dates a file, and waits until it is on the device.
pub(crate) fn sync_dated<F: Folder>(
    folder: &mut F,
    file: &F::File,
    log: Option<&F::File>,
    later: Option<u64>,
) -> io::Result<()>
    ensures synced { OnOk result (SyncsDated (F.file_of file.now)
        (option_map (λ l. F.file_of l.now) log.entry)
        later (F.steps folder.old) (F.steps folder.new)) }
    ensures dated { OnErr result (MayDate (F.file_of file.now)
        (option_map (λ l. F.file_of l.now) log.entry)
        later (F.steps folder.old) (F.steps folder.new)) }
{
    give_date(folder, file, log, later);
    folder.sync(file)
}

/// Dates a file by a log, by which a later session knows beside which log a text was put. A file
/// system that keeps no such times is no reason to stop.
fn give_date<F: Folder>(folder: &mut F, file: &F::File, log: Option<&F::File>, later: Option<u64>)
    ensures { MayDate (F.file_of file.now) (option_map (λ l. F.file_of l.now) log.entry) later
        (F.steps folder.old) (F.steps folder.new) }
{
    let Some(later) = later else {
        return;
    };
    if let Some(log) = log {
        let _ = folder.date(file, log, later);
    }
}

/// Gives a file the name, once what stands there is kept where anything of it would be lost.
#[tactic(auto, using(crate::proofs::StagingLaws::stops_here))]
fn give_name<F: Folder>(folder: &mut F, log: Option<&F::File>, staged: Staged<'_>) -> io::Result<()>
    ensures named { (file : ℕ) → OnOk result (DoesAll file
        (option_map (λ l. F.file_of l.now) log.entry) staged.entry (Keeps ∷ TakesName ∷ [])
        (F.steps folder.old) (F.steps folder.new)) }
    ensures unnamed { (file : ℕ) → OnErr result (StopsBefore file
        (option_map (λ l. F.file_of l.now) log.entry) staged.entry (Keeps ∷ [])
        (F.steps folder.old) (F.steps folder.new)) }
{
    match staged.old {
        Old::Nothing => give_free_name(folder, staged.path, staged.name),
        Old::Log => {
            let spare = keep(folder, staged.name, Keeping::ByName)?;
            folder.rename(staged.path, spare)
        }
        Old::Text(own, bytes) => {
            let spare = spare_text(folder, staged.name, own, bytes, Keeping::ByName)?;
            folder.rename(staged.path, spare)
        }
        Old::Read(length) => {
            check_as_read(folder, staged.name, log, length)?;
            let spare = keep(folder, staged.name, Keeping::ByName)?;
            folder.rename(staged.path, spare)
        }
    }
}

/// The path of a text, once it is kept where anything of it is lost if these bytes take its place.
pub(crate) fn spare_text<'p, F: Folder>(
    folder: &mut F,
    path: &'p str,
    own: Option<Stamp>,
    bytes: &[u8],
    keeping: Keeping,
) -> io::Result<Spare<'p>>
    ensures path { IfOk result (λ spare. path_of spare ≡ path.now) }
    ensures kept { OnOk result (SparesText path.now own bytes.now
        (F.steps folder.old) (F.steps folder.new)) }
    ensures copied { keeping ≡ Keeping.ByCopy → IfOk result MayBeOverwritten }
    ensures idle { OnErr result (IsIdle (F.steps folder.old) (F.steps folder.new)) }
{
    match spare_for(folder, path, own, bytes)? {
        Some(spare) => Ok(spare),
        None => keep(folder, path, keeping),
    }
}

/// `WouldBlock` unless a path stands for a log, which has the length that was read.
#[tactic(auto, using(crate::proofs::FolderLaws::only_none, crate::proofs::FolderLaws::idle_follow, crate::proofs::FolderLaws::idle_follow_look_at))]
fn check_as_read<F: Folder>(
    folder: &mut F,
    path: &str,
    log: Option<&F::File>,
    length: u64,
) -> io::Result<()>
    ensures shown { OnOk result
        (StandsAsRead (option_map (λ l. F.file_of l.now) log.entry) path.now length
        (F.steps folder.old) (F.steps folder.new)) }
    ensures idle { OnErr result (IsIdle (F.steps folder.old) (F.steps folder.new)) }
{
    let Some(log) = log else {
        return Err(io::Error::from(ErrorKind::WouldBlock));
    };
    let Some(found) = folder.follow(path)?.found else {
        return Err(io::Error::from(ErrorKind::WouldBlock));
    };
    let open = folder.look_at(log)?;
    if found.stamp.is_of_the_file(&open.stamp) && found.stamp.length == length {
        return Ok(());
    }
    Err(io::Error::from(ErrorKind::WouldBlock))
}
