//! What stands under a path is kept before that goes.
ghost use Rattle.std.specs.Prelude.{◌≡◌, IfOk, IfSome, OnErr, string_bytes};
ghost use Rattle.mgr_port.specs.Folder.{IsIdle};
ghost use Rattle.mgr_port.specs.declared.keeping.Keeping.TheVariants as Keeping;
ghost use Rattle.mgr_port.specs.Spares.{EndsInTilde, IsKept, IsSpareFor, MayBeOverwritten, path_of};

use crate::folder::Folder;
use crate::spare::{Loss, Reason, Spare, loss_of};
use crate::stamp::Stamp;
use std::alloc::Global;
use std::io;
use std::io::ErrorKind;

/// How many files may be kept beside one, so that a search for a free name ends.
const MAX_KEPT: u32 = 10000;

/// How what stands under a path is kept.
#[derive(Clone, Copy, PartialEq, Eq)]
pub enum Keeping {
    /// By a second name, if the first is then given to another file.
    ByName,
    /// By a copy, if the file is then written over.
    ByCopy,
}

/// Keeps what stands under a path beside it, under the path with `~` after it; if that is taken with
/// `.~1~`, `.~2~` and so on. Nothing is overwritten.
#[tactic(auto, using(crate::proofs::FolderLaws::only_none, crate::proofs::FolderLaws::kept_later))]
pub fn keep<'p, F: Folder>(folder: &mut F, path: &'p str, keeping: Keeping) -> io::Result<Spare<'p>>
    ensures path { IfOk result (λ spare. path_of spare ≡ path.now) }
    ensures kept { IfOk result (λ spare.
        IsKept spare.reason path.now (F.steps folder.old) (F.steps folder.new)) }
    ensures copied { keeping ≡ Keeping.ByCopy → IfOk result MayBeOverwritten }
    ensures idle { OnErr result (IsIdle (F.steps folder.old) (F.steps folder.new)) }
{
    for number in 0..MAX_KEPT {
        let kept = kept_path(folder.alloc(), path, number)?;
        match keep_as(folder, path, kept.as_str(), keeping) {
            Ok(spare) => return Ok(spare),
            Err(error) if error.kind() == ErrorKind::AlreadyExists => {}
            Err(error) => return Err(error),
        }
    }
    Err(io::Error::from(ErrorKind::AlreadyExists))
}

fn kept_path(alloc: Global, path: &str, number: u32) -> io::Result<String>
    ensures { IfOk result (λ name. EndsInTilde (string_bytes name)) }
{
    let mut name = if number == 0 {
        String::from_str(alloc, path)?
    } else {
        format!(in alloc; "{path}.~{number}")?
    };
    name.push_str("~")?;
    Ok(name)
}

/// The same under a name; `AlreadyExists` if that is taken.
#[tactic(auto, using(crate::proofs::FolderLaws::only_none))]
fn keep_as<'p, F: Folder>(
    folder: &mut F,
    path: &'p str,
    name: &str,
    keeping: Keeping,
) -> io::Result<Spare<'p>>
    requires { EndsInTilde name.now }
    ensures path { IfOk result (λ spare. path_of spare ≡ path.now) }
    ensures kept { IfOk result (λ spare.
        IsKept spare.reason path.now (F.steps folder.old) (F.steps folder.new)) }
    ensures copied { keeping ≡ Keeping.ByCopy → IfOk result MayBeOverwritten }
    ensures idle { OnErr result (IsIdle (F.steps folder.old) (F.steps folder.new)) }
{
    if keeping == Keeping::ByCopy {
        return copy(folder, path, name);
    }
    match folder.link(path, name) {
        Ok(()) => Ok(Spare::new(path, Reason::Linked)),
        Err(error) if error.kind() == ErrorKind::AlreadyExists => Err(error),
        // A file system may give no second name.
        Err(_) => copy(folder, path, name),
    }
}

/// Keeps the bytes of a path under a name; `AlreadyExists` if that is taken.
#[tactic(auto, using(crate::proofs::FolderLaws::only_none, crate::proofs::FolderLaws::idle_read))]
fn copy<'p, F: Folder>(folder: &mut F, path: &'p str, name: &str) -> io::Result<Spare<'p>>
    requires { EndsInTilde name.now }
    ensures path { IfOk result (λ spare. path_of spare ≡ path.now) }
    ensures kept { IfOk result (λ spare.
        IsKept spare.reason path.now (F.steps folder.old) (F.steps folder.new)) }
    ensures written { IfOk result MayBeOverwritten }
    ensures idle { OnErr result (IsIdle (F.steps folder.old) (F.steps folder.new)) }
{
    let bytes = folder.read(path)?;
    folder.make(name, &bytes)?;
    Ok(Spare::new(path, Reason::Copied))
}

/// The path, if nothing is lost of the plain file that it leads to if these bytes take its place:
/// there is none, or it is as this port left it, or has the same bytes. `InvalidInput` if it leads to
/// something else.
#[tactic(auto, using(crate::proofs::FolderLaws::only_none, crate::proofs::FolderLaws::idle_follow, crate::proofs::FolderLaws::idle_follow_read))]
pub fn spare_for<'p, F: Folder>(
    folder: &mut F,
    path: &'p str,
    own: Option<Stamp>,
    bytes: &[u8],
) -> io::Result<Option<Spare<'p>>>
    ensures shown { IfOk result
        (IsSpareFor path.now own bytes.now (F.steps folder.old) (F.steps folder.new)) }
    ensures written { IfOk result (λ o. IfSome o MayBeOverwritten) }
    ensures idle { OnErr result (IsIdle (F.steps folder.old) (F.steps folder.new)) }
{
    let standing = folder.follow(path)?;
    let Some(look) = standing.found else {
        return Ok(Some(Spare::new(path, Reason::Nothing)));
    };
    if !look.is_plain {
        return Err(io::Error::from(ErrorKind::InvalidInput));
    }
    match loss_of(own, look.stamp, bytes.len() as u64) {
        Loss::Nothing => Ok(Some(Spare::new(path, Reason::Known))),
        Loss::Bytes => Ok(None),
        Loss::OtherBytes => {
            if folder.read(path)?.as_slice() == bytes {
                return Ok(Some(Spare::new(path, Reason::Same)));
            }
            Ok(None)
        }
    }
}
