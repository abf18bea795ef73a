//! What files are, and who may do what with them.
ghost use Rattle.std.specs.Prelude.{◌≡◌, IfOk, OnErr, OnOk};
ghost use Rattle.mgr_port.specs.Folder.{IsQuiet};
ghost use Rattle.mgr_port.specs.Spares.{SetsRights};
ghost use Rattle.mgr_port.specs.Texts.{FollowsPlain, TakesMode, TakesOwner};
ghost use Rattle.mgr_port.specs.Verdicts.{mode_like};

use crate::folder::Folder;
use crate::spare::{Look, Owner};
use std::io;
use std::io::ErrorKind;

/// A file that only its owner may read and write.
pub(crate) const OWN: u32 = 0o600;

/// The plain file that a path leads to; none where it is not there. `InvalidInput` where something else
/// is: a pipe may never have an end, and a device may have none.
#[tactic(auto, using(crate::proofs::FolderLaws::only_none, crate::proofs::FolderLaws::quiet_follow))]
pub(crate) fn plain_if_there<F: Folder>(folder: &mut F, path: &str) -> io::Result<Option<Look>>
    ensures shown { IfOk result (FollowsPlain path.now (F.steps folder.old) (F.steps folder.new)) }
    ensures quiet { IsQuiet (F.steps folder.old) (F.steps folder.new) }
{
    match folder.follow(path)?.found {
        None => Ok(None),
        Some(look) if look.is_plain => Ok(Some(look)),
        Some(_) => Err(io::Error::from(ErrorKind::InvalidInput)),
    }
}

/// Gives a new log the owner and the group of another file, where that is allowed, and its mode, but
/// that nobody runs it and its owner can add to it.
pub(crate) fn take_mode<F: Folder>(folder: &mut F, log: &F::File, like: Look) -> io::Result<()>
    ensures taken { OnOk result
        (TakesMode (F.file_of log.now) like (F.steps folder.old) (F.steps folder.new)) }
    ensures only { SetsRights (F.file_of log.now) (F.steps folder.old) (F.steps folder.new) }
{
    let is_owned = take_owner(folder, log, like.owner)?;
    folder.set_mode(log, mode_like(like.mode, is_owned))
}

/// The mode of a new file that stands for another, by the mode of that one and by whether it has its
/// owner and group. Another group is not let in.
fn mode_like(mode: u32, is_owned: bool) -> u32
    ensures { result ≡ mode_like mode is_owned }
{
    let allowed = if is_owned { 0o666 } else { 0o606 };
    (mode & allowed) | OWN
}

/// Gives a new file an owner and a group, and tells whether it has them.
pub(crate) fn take_owner<F: Folder>(
    folder: &mut F,
    file: &F::File,
    owner: Owner,
) -> io::Result<bool>
    ensures taken { IfOk result
        (TakesOwner (F.file_of file.now) owner (F.steps folder.old) (F.steps folder.new)) }
    ensures same { OnErr result (F.steps folder.new ≡ F.steps folder.old) }
{
    if folder.look_at(file)?.owner == owner {
        return Ok(true);
    }
    match folder.give_to(file, owner) {
        Ok(()) => Ok(true),
        Err(_) => Ok(false),
    }
}
