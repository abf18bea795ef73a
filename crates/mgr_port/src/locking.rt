//! Files that are opened and locked.
ghost use Rattle.std.specs.Prelude.{◌≢◌, IfOk, IfSome, OnErr, OnOk};
ghost use Rattle.mgr_port.specs.declared.folder.Lock.TheVariants as Lock;
ghost use Rattle.mgr_port.specs.Folder.{IsQuiet};
ghost use Rattle.mgr_port.specs.Locks.{ClearsHeld, Holds, HoldsEmpty, IsHeldEmpty, IsOpened};
ghost use Rattle.mgr_port.specs.Locks.{OpensBeside, OpensLocked, OpensPlain, ShowsStanding};
ghost use Rattle.mgr_port.specs.Spares.{ChangesOnlyAt};

use crate::folder::{Folder, Lock, Opening};
use crate::vacating::make_way;
use std::io;
use std::io::ErrorKind;

/// How often a file is looked for anew where its name changes meanwhile.
pub(crate) const TRIES: u32 = 16;

/// Whether a path stands for a file that is open.
#[tactic(auto, using(crate::proofs::FolderLaws::only_none, crate::proofs::FolderLaws::quiet_follow, crate::proofs::FolderLaws::quiet_follow_look_at))]
pub(crate) fn stands_for<F: Folder>(folder: &mut F, path: &str, file: &F::File) -> io::Result<bool>
    ensures shown { IfOk result
        (ShowsStanding (F.file_of file.now) path.now (F.steps folder.old) (F.steps folder.new)) }
    ensures quiet { IsQuiet (F.steps folder.old) (F.steps folder.new) }
{
    let Some(found) = folder.follow(path)?.found else {
        return Ok(false);
    };
    let open = folder.look_at(file)?;
    Ok(found.stamp.is_of_the_file(&open.stamp))
}

/// Whether to go on, by who has a file locked. `WouldBlock` if something else has it.
pub(crate) fn check_lock(lock: Lock) -> io::Result<()>
    ensures { OnOk result (lock ≢ Lock.Others) }
{
    match lock {
        Lock::Own | Lock::Unknown => Ok(()),
        Lock::Others => Err(io::Error::from(ErrorKind::WouldBlock)),
    }
}

/// Locks a file that is open, for as long as it is. `WouldBlock` if something else has it locked; a
/// file system that has no locks is no reason to stop. `Interrupted` if the path does not stand for
/// it after that.
#[tactic(auto, using(crate::proofs::FolderLaws::only_none))]
pub(crate) fn hold<F: Folder>(folder: &mut F, path: &str, file: &F::File) -> io::Result<()>
    ensures held { OnOk result
        (Holds (F.file_of file.now) path.now (F.steps folder.old) (F.steps folder.new)) }
    ensures quiet { IsQuiet (F.steps folder.old) (F.steps folder.new) }
{
    check_lock(folder.lock(file)?)?;
    if !stands_for(folder, path, file)? {
        return Err(io::Error::from(ErrorKind::Interrupted));
    }
    Ok(())
}

/// Opens a file to read it alone, or to add to it too if it may be written.
#[tactic(auto, using(crate::proofs::FolderLaws::only_none, crate::proofs::FolderLaws::quiet_open_to_read, crate::proofs::FolderLaws::quiet_open_to_add))]
fn open_as<F: Folder>(folder: &mut F, path: &str, adds: bool) -> io::Result<F::File>
    ensures opened { IfOk result
        (λ file. IsOpened (F.file_of file) path.now (F.steps folder.old) (F.steps folder.new)) }
    ensures quiet { IsQuiet (F.steps folder.old) (F.steps folder.new) }
{
    if !adds {
        return folder.open(path, Opening::Read);
    }
    match folder.open(path, Opening::Add) {
        Ok(file) => Ok(file),
        Err(error) if error.kind() == ErrorKind::NotFound => Err(error),
        Err(_) => folder.open(path, Opening::Read),
    }
}

/// Opens the plain file of a path; none if it is not there. `InvalidInput` if it is no plain file: a
/// pipe may never have an end, and a device may have none.
#[tactic(auto, using(crate::proofs::FolderLaws::only_none, crate::proofs::FolderLaws::quiet_follow))]
fn open_plain<F: Folder>(folder: &mut F, path: &str, adds: bool) -> io::Result<Option<F::File>>
    ensures opened { IfOk result
        (λ o. IfSome o (λ file. OpensPlain (F.file_of file) path.now (F.steps folder.new))) }
    ensures quiet { IsQuiet (F.steps folder.old) (F.steps folder.new) }
{
    let Some(look) = folder.follow(path)?.found else {
        return Ok(None);
    };
    if !look.is_plain {
        return Err(io::Error::from(ErrorKind::InvalidInput));
    }
    match open_as(folder, path, adds) {
        Ok(file) => Ok(Some(file)),
        Err(error) if error.kind() == ErrorKind::NotFound => Ok(None),
        Err(error) => Err(error),
    }
}

/// Opens and locks the plain file of a path, to read it alone or to add to it too; none if it is not
/// there. `InvalidInput` as of `open_plain`. `Interrupted` if the path stood for another file
/// meanwhile, and `WouldBlock` if something else has it locked.
#[tactic(auto, using(crate::proofs::FolderLaws::only_chain))]
pub fn open_locked<F: Folder>(folder: &mut F, path: &str, adds: bool) -> io::Result<Option<F::File>>
    ensures locked { IfOk result
        (λ o. IfSome o (λ file. OpensLocked (F.file_of file) path.now (F.steps folder.new))) }
    ensures quiet { IsQuiet (F.steps folder.old) (F.steps folder.new) }
{
    let Some(file) = open_plain(folder, path, adds)? else {
        return Ok(None);
    };
    hold(folder, path, &file)?;
    Ok(Some(file))
}

/// The same, tried anew if it was `Interrupted`. `WouldBlock` if it always is.
#[tactic(auto, using(crate::proofs::FolderLaws::only_none))]
pub(crate) fn open_again<F: Folder>(
    folder: &mut F,
    path: &str,
    adds: bool,
) -> io::Result<Option<F::File>>
    ensures locked { IfOk result
        (λ o. IfSome o (λ file. OpensLocked (F.file_of file) path.now (F.steps folder.new))) }
    ensures quiet { IsQuiet (F.steps folder.old) (F.steps folder.new) }
{
    for _ in 0..TRIES {
        match open_locked(folder, path, adds) {
            Err(error) if error.kind() == ErrorKind::Interrupted => {}
            answer => return answer,
        }
    }
    Err(io::Error::from(ErrorKind::WouldBlock))
}

/// Opens a file that is still to get its name, and makes it if it is not there. Only its owner may
/// read it. What is written goes to its end. What stands there and is no plain file makes way, so
/// that nothing is written through a link.
pub(crate) fn open_beside<F: Folder>(folder: &mut F, path: &str) -> io::Result<F::File>
    ensures opened { IfOk result (λ file.
        OpensBeside (F.file_of file) path.now (F.steps folder.old) (F.steps folder.new)) }
    ensures only { ChangesOnlyAt path.now (F.steps folder.old) (F.steps folder.new) }
{
    if let Some(spare) = folder.look(path)?.if_no_file() {
        folder.remove(spare)?;
    }
    folder.open(path, Opening::Beside)
}

/// Locks a file of a path that is still to get its name. `WouldBlock` if something else has it
/// locked. `Interrupted` if the path stood for another file meanwhile, or for one with bytes, as one
/// that was killed may leave it: that is kept, and lets go of the name; `PermissionDenied` if it
/// can't.
#[tactic(auto, unfolding(crate::specs::Locks::HoldsEmpty))]
pub(crate) fn hold_empty<F: Folder>(folder: &mut F, path: &str, next: &F::File) -> io::Result<()>
    ensures held { OnOk result
        (HoldsEmpty (F.file_of next.now) path.now (F.steps folder.old) (F.steps folder.new)) }
    ensures cleared { OnErr result
        (ClearsHeld path.now (F.steps folder.old) (F.steps folder.new)) }
    ensures only { ChangesOnlyAt path.now (F.steps folder.old) (F.steps folder.new) }
{
    hold(folder, path, next)?;
    if folder.look_at(next)?.stamp.length == 0 {
        return Ok(());
    }
    match make_way(folder, path) {
        Ok(()) => Err(io::Error::from(ErrorKind::Interrupted)),
        Err(error) if error.kind() == ErrorKind::OutOfMemory => Err(error),
        Err(_) => Err(io::Error::from(ErrorKind::PermissionDenied)),
    }
}

/// A file of a path that is still to get its name, empty and locked.
fn try_beside<F: Folder>(folder: &mut F, path: &str) -> io::Result<F::File>
    ensures held { IfOk result
        (λ file. IsHeldEmpty (F.file_of file) path.now (F.steps folder.new)) }
    ensures only { ChangesOnlyAt path.now (F.steps folder.old) (F.steps folder.new) }
{
    let next = open_beside(folder, path)?;
    hold_empty(folder, path, &next)?;
    Ok(next)
}

/// The same, tried anew if the path stood for another file meanwhile. `WouldBlock` if it always
/// does.
pub fn take_beside<F: Folder>(folder: &mut F, path: &str) -> io::Result<F::File>
    ensures held { IfOk result
        (λ file. IsHeldEmpty (F.file_of file) path.now (F.steps folder.new)) }
    ensures only { ChangesOnlyAt path.now (F.steps folder.old) (F.steps folder.new) }
{
    for _ in 0..TRIES {
        match try_beside(folder, path) {
            Err(error) if error.kind() == ErrorKind::Interrupted => {}
            answer => return answer,
        }
    }
    Err(io::Error::from(ErrorKind::WouldBlock))
}
