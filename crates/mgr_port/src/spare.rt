//! Paths that may go, or be given to another file, and why nothing is lost then of what stands there.
ghost use Rattle.std.specs.Prelude.{◌≡◌, ◌≢◌, ◌↔◌, None, Some, IfSome, IsSome, true, nat_eq, if◌then◌else◌};
ghost use Rattle.std.specs.Fs.{IsFile, file_type, metadata_len, metadata_mode};
ghost use Rattle.mgr_port.specs.declared.spare.Loss.TheVariants as Loss;
ghost use Rattle.mgr_port.specs.declared.spare.Reason.TheVariants as Reason;
ghost use Rattle.mgr_port.specs.Spares.{IsFor, IsNoFile, IsNothing, IsOfFile, IsOneOfMore, path_of};

use crate::stamp::{Stamp, Time};
use std::fs::Metadata;
use std::os::unix::fs::MetadataExt;

/// A file, as a look at it shows it.
#[derive(Clone, Copy, PartialEq, Eq)]
pub struct Look {
    /// Whether it is a plain file.
    pub is_plain: bool,
    /// How many names it has.
    pub names: u64,
    pub stamp: Stamp,
    /// When anything of it was changed last, its date too.
    pub(crate) touched: Time,
    pub(crate) mode: u32,
    pub(crate) owner: Owner,
}

/// Whose a file is.
#[derive(Clone, Copy, PartialEq, Eq)]
pub struct Owner {
    pub(crate) user: u32,
    pub(crate) group: u32,
}

impl Look {
    /// At a file of the first device by its number there, which was never changed, may be used by
    /// nobody, and is the first user's.
    pub fn of_file(is_plain: bool, names: u64, inode: u64, length: u64) -> Look
        ensures kind { result.is_plain ≡ is_plain }
        ensures names { result.names ≡ names }
        ensures length { result.stamp.length ≡ length }
    {
        let never = Time {
            seconds: 0,
            nanos: 0,
        };
        Look {
            is_plain,
            names,
            stamp: Stamp {
                device: 0,
                inode,
                length,
                changed: never,
            },
            touched: never,
            mode: 0,
            owner: Owner { user: 0, group: 0 },
        }
    }

    /// What the system says of a file.
    pub(crate) fn of(metadata: &Metadata) -> Look
        ensures kind { (result.is_plain ≡ true) ↔ IsFile (file_type metadata.now) }
        ensures length { result.stamp.length ≡ metadata_len metadata.now }
        ensures mode { result.mode ≡ metadata_mode metadata.now }
    {
        Look {
            is_plain: metadata.is_file(),
            names: metadata.nlink(),
            stamp: Stamp {
                device: metadata.dev(),
                inode: metadata.ino(),
                length: metadata.len(),
                changed: Time {
                    seconds: metadata.mtime(),
                    nanos: metadata.mtime_nsec(),
                },
            },
            touched: Time {
                seconds: metadata.ctime(),
                nanos: metadata.ctime_nsec(),
            },
            mode: metadata.mode(),
            owner: Owner {
                user: metadata.uid(),
                group: metadata.gid(),
            },
        }
    }
}

/// What stands under a path, as a look showed it.
#[derive(Clone, Copy)]
pub struct Standing<'p> {
    pub path: &'p str,
    /// None if nothing stands there.
    pub found: Option<Look>,
}

/// Why nothing is lost of what stands under a path if that goes.
#[derive(Clone, Copy, PartialEq, Eq)]
pub enum Reason {
    /// Nothing stands there, or no plain file, or one without bytes.
    Nothing,
    /// This port read it, or put it.
    Known,
    /// It has the bytes that take its place.
    Same,
    /// This port has it open.
    Open,
    /// Its file has another name.
    Linked,
    /// Its bytes stand under another name.
    Copied,
}

/// A path that may go, or be given to another file.
#[derive(Drop)]
pub struct Spare<'p> {
    path: &'p str,
    reason: Reason,
}

impl<'p> Spare<'p> {
    /// The path of what stands there, for a reason that was seen.
    pub(crate) fn new(path: &'p str, reason: Reason) -> Spare<'p>
        ensures { IsFor path.now reason result }
    {
        Spare { path, reason }
    }

    /// The path.
    pub fn path(&self) -> &'p str
        ensures { result.now ≡ path_of self.now }
    {
        self.path
    }
}

impl<'p> Standing<'p> {
    /// The path, if nothing stands there, or nothing with bytes.
    pub(crate) fn if_nothing(self) -> Option<Spare<'p>>
        ensures exact { IsSome result ↔ IsNothing self.entry.found }
        ensures path { IfSome result (IsFor self.entry.path.now Reason.Nothing) }
    {
        match self.found {
            Some(look) if look.is_plain && look.stamp.length > 0 => None,
            _ => Some(Spare::new(self.path, Reason::Nothing)),
        }
    }

    /// The path, if what stands there is no plain file.
    pub(crate) fn if_no_file(self) -> Option<Spare<'p>>
        ensures exact { IsSome result ↔ IsNoFile self.entry.found }
        ensures path { IfSome result (IsFor self.entry.path.now Reason.Nothing) }
    {
        match self.found {
            Some(look) if !look.is_plain => Some(Spare::new(self.path, Reason::Nothing)),
            _ => None,
        }
    }

    /// The path, if it stands for a file that is open.
    pub(crate) fn if_open(self, open: Look) -> Option<Spare<'p>>
        ensures exact { IsSome result ↔ IsOfFile open.stamp self.entry.found }
        ensures path { IfSome result (IsFor self.entry.path.now Reason.Open) }
    {
        match self.found {
            Some(look) if look.stamp.is_of_the_file(&open.stamp) => {
                Some(Spare::new(self.path, Reason::Open))
            }
            _ => None,
        }
    }

    /// The path, if it stands for a file that is open, and that has another name too.
    pub(crate) fn if_second_name(self, open: Look) -> Option<Spare<'p>>
        ensures exact { IsSome result ↔ IsOneOfMore open.stamp self.entry.found }
        ensures path { IfSome result (IsFor self.entry.path.now Reason.Linked) }
    {
        match self.found {
            Some(look) if look.names > 1 && look.stamp.is_of_the_file(&open.stamp) => {
                Some(Spare::new(self.path, Reason::Linked))
            }
            _ => None,
        }
    }
}

/// What is lost of a file if another takes its place.
#[derive(Clone, Copy, PartialEq, Eq)]
pub(crate) enum Loss {
    /// Nothing: this port read it, or put it.
    Nothing,
    /// What nobody else may have.
    Bytes,
    /// The same, unless it has the bytes of the other.
    OtherBytes,
}

/// What is lost of the file that is there, if this port left that one, and if one of such a length
/// takes its place.
pub(crate) fn loss_of(own: Option<Stamp>, there: Stamp, length: u64) -> Loss
    ensures own { (result ≡ Loss.Nothing) ↔ (own ≡ Some there) }
    ensures other { own ≢ Some there →
        result ≡ (if nat_eq there.length length then Loss.OtherBytes else Loss.Bytes) }
{
    if own == Some(there) {
        return Loss::Nothing;
    }
    if there.length == length {
        return Loss::OtherBytes;
    }
    Loss::Bytes
}
