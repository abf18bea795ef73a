//! Paths that go, or are given to another file.
ghost use Rattle.std.specs.Prelude.{IfOk, OnErr, OnOk};
ghost use Rattle.mgr_port.specs.Folder.{IsIdle};
ghost use Rattle.mgr_port.specs.Locks.{MakesBeside};
ghost use Rattle.mgr_port.specs.Spares.{ChangesOnlyAt, GivesFreeName, IsOfFile, IsOneOfMore, IsVacated, MakesWay};
ghost use Rattle.mgr_port.specs.Spares.{MayBeKept, MayRemove, RemovesIf};

use crate::folder::{Folder, Opening};
use crate::keeping::{Keeping, keep};
use crate::spare::{Reason, Spare};
use std::io;
use std::io::ErrorKind;

/// The path, once nothing is lost of what stands there itself: bytes of a plain file are kept. None
/// if nothing stands there.
#[tactic(auto, unfolding(crate::specs::Spares::IsSpare), using(crate::proofs::FolderLaws::only_none))]
fn spare_name<'p, F: Folder>(folder: &mut F, path: &'p str) -> io::Result<Option<Spare<'p>>>
    ensures vacated { IfOk result
        (IsVacated path.now (F.steps folder.old) (F.steps folder.new)) }
    ensures idle { OnErr result (IsIdle (F.steps folder.old) (F.steps folder.new)) }
{
    let standing = folder.look(path)?;
    if standing.found.is_none() {
        return Ok(None);
    }
    match standing.if_nothing() {
        Some(spare) => Ok(Some(spare)),
        None => Ok(Some(keep(folder, path, Keeping::ByName)?)),
    }
}

/// Has what stands under a path let go of it. Bytes of a plain file are kept.
pub fn make_way<F: Folder>(folder: &mut F, path: &str) -> io::Result<()>
    ensures made { OnOk result (MakesWay path.now (F.steps folder.old) (F.steps folder.new)) }
    ensures kept { OnErr result (MayBeKept path.now (F.steps folder.old) (F.steps folder.new)) }
{
    match spare_name(folder, path)? {
        Some(spare) => folder.remove(spare),
        None => Ok(()),
    }
}

/// Removes a path, if it stands for a file that is open.
pub fn remove_open<F: Folder>(folder: &mut F, path: &str, file: &F::File) -> io::Result<()>
    ensures removed { OnOk result
        (RemovesIf IsOfFile (F.file_of file.now) path.now
        (F.steps folder.old) (F.steps folder.new)) }
    ensures tried { MayRemove IsOfFile (F.file_of file.now) path.now
        (F.steps folder.old) (F.steps folder.new) }
{
    let open = folder.look_at(file)?;
    match folder.follow(path)?.if_open(open) {
        Some(spare) => folder.remove(spare),
        None => Ok(()),
    }
}

/// Removes a path, if it stands for a file that is open and has another name.
pub(crate) fn remove_second_name<F: Folder>(
    folder: &mut F,
    path: &str,
    file: &F::File,
) -> io::Result<()>
    ensures removed { OnOk result
        (RemovesIf IsOneOfMore (F.file_of file.now) path.now
        (F.steps folder.old) (F.steps folder.new)) }
    ensures tried { MayRemove IsOneOfMore (F.file_of file.now) path.now
        (F.steps folder.old) (F.steps folder.new) }
{
    let open = folder.look_at(file)?;
    match folder.follow(path)?.if_second_name(open) {
        Some(spare) => folder.remove(spare),
        None => Ok(()),
    }
}

/// Gives a file a name that nothing has, in place of its own, which it may keep if that cannot be
/// taken. `AlreadyExists` if something has got the name meanwhile; if the file system gives no
/// second name, that is looked at right before.
#[tactic(auto, using(crate::proofs::FolderLaws::only_none, crate::proofs::FolderLaws::idle_look))]
pub fn give_free_name<F: Folder>(folder: &mut F, path: &str, name: &str) -> io::Result<()>
    ensures named { OnOk result
        (GivesFreeName path.now name.now (F.steps folder.old) (F.steps folder.new)) }
    ensures idle { OnErr result (IsIdle (F.steps folder.old) (F.steps folder.new)) }
{
    match folder.link(path, name) {
        Ok(()) => {
            let _ = folder.remove(Spare::new(path, Reason::Linked));
            return Ok(());
        }
        Err(error) if error.kind() == ErrorKind::AlreadyExists => return Err(error),
        Err(_) => {}
    }
    match folder.look(name)?.found {
        None => folder.rename(path, Spare::new(name, Reason::Nothing)),
        Some(_) => Err(io::Error::from(ErrorKind::AlreadyExists)),
    }
}

/// Makes a file beside another, new and empty. Bytes that stand there are kept.
pub(crate) fn make_beside<F: Folder>(folder: &mut F, path: &str, mode: u32) -> io::Result<F::File>
    ensures made { IfOk result (λ file.
        MakesBeside (F.file_of file) path.now mode (F.steps folder.old) (F.steps folder.new)) }
    ensures only { OnErr result
        (ChangesOnlyAt path.now (F.steps folder.old) (F.steps folder.new)) }
{
    make_way(folder, path)?;
    folder.open(path, Opening::New(mode))
}
