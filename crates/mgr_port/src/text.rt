//! A text, as this port found and left it.
ghost use Rattle.std.specs.Option.{option_map};
ghost use Rattle.std.specs.Prelude.{◌≡◌, ◌≤◌, ℕ, None, Some, IfOk, IfSome, OnErr, OnOk, string_bytes};
ghost use Rattle.mgr_port.specs.Folder.{IsQuiet};
ghost use Rattle.mgr_port.specs.Spares.{MakesFileAt, PutsOnlyAt, WaitsBeside};
ghost use Rattle.mgr_port.specs.Texts.{IsOwnAlone, IsOwnBeside, IsThere, KeepsOwn, LeavesNextText, MakesLike, MakesNextText, NamesText};
ghost use Rattle.mgr_port.specs.Texts.{PutsBeside, PutsInPlace, PutsText, TriesText, WritesInPlace};

use crate::files::{plain_if_there, take_owner};
use crate::folder::{Folder, Opening};
use crate::keeping::Keeping;
use crate::locking::{check_lock, open_again};
use crate::log::{LeftLog, Log};
use crate::names::Paths;
use crate::spare::Look;
use crate::staged::{Named, Old, Staged, put_whole, spare_text, sync_dated};
use crate::stamp::{LATER, Stamp, is_dated_by};
use crate::vacating::{make_beside, remove_open};
use std::io;
use std::io::ErrorKind;

/// A text that is made gets the permissions that the user's mask leaves of these.
const ALL: u32 = 0o666;

/// A text. It is locked for as long as it is open.
#[derive(Drop)]
pub(crate) struct Text<T> {
    /// The file, where it is there.
    file: Option<T>,
    /// What it was when this port read it or put it.
    own: Option<Stamp>,
    /// The file whose name it took, still open: to close that may give up its place on the device,
    /// which takes as long as to wait for the device.
    pub(crate) replaced: Option<T>,
}

impl<T: Drop> Text<T> {
    /// A text of which nothing was read and nothing is locked.
    pub(crate) fn new() -> Text<T>
        ensures { result.own ≡ None }
    {
        Text {
            file: None,
            own: None,
            replaced: None,
        }
    }

    /// Locks and reads the text, which is this port's own then. `InvalidInput` where it is no plain
    /// file, and `WouldBlock` where something else has it locked.
    #[tactic(auto, using(crate::proofs::FolderLaws::quiet_then_look_at, crate::proofs::FolderLaws::quiet_then_read, crate::proofs::FolderLaws::quiet_then_look_at_read))]
    pub(crate) fn load<F: Folder<File = T>>(
        &mut self,
        folder: &mut F,
        path: &str,
    ) -> io::Result<Option<Vec<u8>>>
        ensures read { IfOk result (λ o. IsOwnAlone (option_map F.file_of self.new.file)
            self.new.own path.now (option_map (λ bytes. bytes.items) o) (F.steps folder.new)) }
        ensures quiet { IsQuiet (F.steps folder.old) (F.steps folder.new) }
    {
        self.file = open_again(folder, path, false)?;
        self.own = None;
        // It is looked at before it is read, so that what comes between is not taken for this port's.
        let stamp = match &self.file {
            Some(file) => Some(folder.look_at(file)?.stamp),
            None => None,
        };
        match folder.read(path) {
            Ok(bytes) => {
                self.own = stamp;
                Ok(Some(bytes))
            }
            Err(error) if error.kind() == ErrorKind::NotFound => Ok(None),
            Err(error) => Err(error),
        }
    }

    /// Locks the text beside a log that was read, where it is there. `WouldBlock` where something else
    /// has it locked; else it need not be readable. It is this port's own where it was put beside this
    /// log; else it is read, and stays what another program left.
    #[tactic(auto, using(crate::proofs::FolderLaws::quiet_then_look_at, crate::proofs::FolderLaws::quiet_then_look_at_read))]
    pub(crate) fn take_beside<F: Folder<File = T>>(
        &mut self,
        folder: &mut F,
        path: &str,
        log: LeftLog,
    ) -> io::Result<Option<Vec<u8>>>
        ensures own { IfOk result (IsOwnBeside (option_map F.file_of self.new.file) path.now
            log.stamp self.old.own self.new.own (F.steps folder.new)) }
        ensures quiet { IsQuiet (F.steps folder.old) (F.steps folder.new) }
    {
        match open_again(folder, path, false) {
            Ok(file) => self.file = file,
            Err(error) if error.kind() == ErrorKind::WouldBlock => return Err(error),
            Err(_) => return Ok(None),
        }
        let Some(file) = &self.file else {
            return Ok(None);
        };
        let look = folder.look_at(file)?;
        if is_dated_by(look, log.stamp.changed) {
            self.own = Some(look.stamp);
            return Ok(None);
        }
        match folder.read(path) {
            Ok(bytes) => Ok(Some(bytes)),
            Err(error) if error.kind() == ErrorKind::OutOfMemory => Err(error),
            Err(_) => Ok(None),
        }
    }

    /// Makes these bytes the text, beside a log. What stands there is kept, unless this port read it
    /// or put it, or it is the same; it is refused where it is no plain file, or may not be written.
    /// The file whose name the text takes stays open as `replaced`, until the next call.
    pub(crate) fn put<F: Folder<File = T>>(
        &mut self,
        folder: &mut F,
        paths: &Paths,
        bytes: &[u8],
        log: Option<&T>,
    ) -> io::Result<()>
        ensures put { OnOk result (PutsText (option_map (λ l. F.file_of l.now) log.entry)
            (option_map F.file_of self.new.file)
            (string_bytes paths.now.next_text) (string_bytes paths.now.text)
            bytes.now self.old.own self.new.own
            (F.steps folder.old) (F.steps folder.new)) }
        ensures only { (over : ℕ) × TriesText over
            (option_map (λ l. F.file_of l.now) log.entry)
            (string_bytes paths.now.next_text) (string_bytes paths.now.text)
            bytes.now self.old.own (F.steps folder.old) (F.steps folder.new) }
        ensures own { OnErr result ((file : ℕ) × KeepsOwn file
            (option_map (λ l. F.file_of l.now) log.entry)
            (string_bytes paths.now.next_text) (string_bytes paths.now.text)
            bytes.now self.old.own self.new.own (F.steps folder.new)) }
    {
        self.replaced = None;
        let own = self.own;
        let path = paths.text.as_str();
        let is_there = is_there(folder, path)?;
        let next = make_next(folder, paths, is_there)?;
        let Some(next) = next else {
            return self.put_in_place(folder, path, bytes, log);
        };
        match self.put_beside(folder, paths, next, bytes, log) {
            // A file that is mounted by itself does not give up its name.
            Err(error) if error.kind() == ErrorKind::ResourceBusy => {
                self.own = own;
                self.put_in_place(folder, path, bytes, log)
            }
            answer => answer,
        }
    }

    /// Writes a new file, and gives it the text's name. It is locked before. Where that fails, there is
    /// no file beside any more.
    fn put_beside<F: Folder<File = T>>(
        &mut self,
        folder: &mut F,
        paths: &Paths,
        next: T,
        bytes: &[u8],
        log: Option<&T>,
    ) -> io::Result<()>
        ensures file { OnOk result (self.new.file ≡ Some next) }
        ensures put { OnOk result (PutsBeside (F.file_of next)
            (option_map (λ l. F.file_of l.now) log.entry) (string_bytes paths.now.next_text)
            (string_bytes paths.now.text) bytes.now self.old.own self.new.own
            (F.steps folder.old) (F.steps folder.new)) }
        ensures left { LeavesNextText (F.file_of next)
            (option_map (λ l. F.file_of l.now) log.entry) (string_bytes paths.now.next_text)
            (string_bytes paths.now.text) bytes.now self.old.own
            (F.steps folder.old) (F.steps folder.new) }
        ensures only { PutsOnlyAt (F.file_of next) (string_bytes paths.now.next_text)
            (string_bytes paths.now.text) (F.steps folder.old) (F.steps folder.new) }
        ensures own { OnErr result (KeepsOwn (F.file_of next)
            (option_map (λ l. F.file_of l.now) log.entry) (string_bytes paths.now.next_text)
            (string_bytes paths.now.text) bytes.now self.old.own self.new.own
            (F.steps folder.new)) }
    {
        let answer = name_next(folder, paths, &next, self.own, bytes, log);
        let named = match answer {
            Ok(named) => named,
            Err(error) => {
                let _ = remove_open(folder, paths.next_text.as_str(), &next);
                return Err(error);
            }
        };
        self.own = Some(folder.look_at(&next)?.stamp);
        self.replaced = self.file.take();
        self.file = Some(next);
        named.settled()
    }

    /// Writes the text where it stands, once that is kept where anything of it would be lost.
    fn put_in_place<F: Folder<File = T>>(
        &mut self,
        folder: &mut F,
        path: &str,
        bytes: &[u8],
        log: Option<&T>,
    ) -> io::Result<()>
        ensures put { OnOk result (PutsInPlace (option_map (λ l. F.file_of l.now) log.entry)
            path.now bytes.now self.old.own self.new.own
            (F.steps folder.old) (F.steps folder.new)) }
        ensures only { (over : ℕ) × WritesInPlace over
            (option_map (λ l. F.file_of l.now) log.entry) path.now bytes.now self.old.own
            (F.steps folder.old) (F.steps folder.new) }
        ensures own { OnErr result (self.new.own ≡ self.old.own) }
    {
        let spare = spare_text(folder, path, self.own, bytes, Keeping::ByCopy)?;
        let file = folder.overwrite(spare)?;
        folder.write(&file, bytes)?;
        sync_dated(folder, &file, log, Some(LATER))?;
        self.own = Some(folder.look_at(&file)?.stamp);
        Ok(())
    }
}

/// Whether a text is there, which may be written then. `InvalidInput` where it is no plain file.
#[tactic(auto, using(crate::proofs::FolderLaws::only_none, crate::proofs::FolderLaws::only_chain, crate::proofs::FolderLaws::quiet_then_open_to_write))]
fn is_there<F: Folder>(folder: &mut F, path: &str) -> io::Result<bool>
    ensures shown { IfOk result (IsThere path.now (F.steps folder.old) (F.steps folder.new)) }
    ensures quiet { IsQuiet (F.steps folder.old) (F.steps folder.new) }
{
    if plain_if_there(folder, path)?.is_none() {
        return Ok(false);
    }
    drop(folder.open(path, Opening::Write)?);
    Ok(true)
}

/// Locks the next text, writes all of it, and gives it the text's name.
fn name_next<F: Folder>(
    folder: &mut F,
    paths: &Paths,
    next: &F::File,
    own: Option<Stamp>,
    bytes: &[u8],
    log: Option<&F::File>,
) -> io::Result<Named>
    ensures named { IfOk result (NamesText (F.file_of next.now)
        (option_map (λ l. F.file_of l.now) log.entry) (string_bytes paths.now.next_text)
        (string_bytes paths.now.text) bytes.now own (F.steps folder.old) (F.steps folder.new)) }
    ensures unnamed { OnErr result (WaitsBeside (F.file_of next.now)
        (string_bytes paths.now.next_text) (string_bytes paths.now.text)
        (F.steps folder.old) (F.steps folder.new)) }
    ensures only { PutsOnlyAt (F.file_of next.now) (string_bytes paths.now.next_text)
        (string_bytes paths.now.text) (F.steps folder.old) (F.steps folder.new) }
{
    check_lock(folder.lock(next)?)?;
    let staged = Staged {
        path: paths.next_text.as_str(),
        name: paths.text.as_str(),
        later: Some(LATER),
        old: Old::Text(own, bytes),
    };
    put_whole(folder, next, log, staged, bytes)
}

/// A new file for a text, with its mode, owner and group; none where the text has to be written in
/// place: a link, which stays one, a file whose owner can't be kept, and one in a folder that takes no
/// new file.
fn make_next<F: Folder>(
    folder: &mut F,
    paths: &Paths,
    is_there: bool,
) -> io::Result<Option<F::File>>
    ensures made { IfOk result (λ o. IfSome o (λ file. MakesNextText (F.file_of file)
        (string_bytes paths.now.next_text)
        (string_bytes paths.now.text) is_there (F.steps folder.old) (F.steps folder.new))) }
    ensures only { MakesFileAt (string_bytes paths.now.next_text)
        (F.steps folder.old) (F.steps folder.new) }
{
    let path = paths.next_text.as_str();
    match folder.look(paths.text.as_str())?.found {
        None => Ok(Some(make_beside(folder, path, ALL)?)),
        Some(look) if look.is_plain && is_there => make_like(folder, path, look),
        Some(_) => Ok(None),
    }
}

/// A new file of a path, with the mode, the owner and the group of a text; none where it can't be had.
fn make_like<F: Folder>(folder: &mut F, path: &str, like: Look) -> io::Result<Option<F::File>>
    ensures made { IfOk result (λ o. IfSome o (λ file.
        MakesLike (F.file_of file) path.now like (F.steps folder.old) (F.steps folder.new))) }
    ensures only { MakesFileAt path.now (F.steps folder.old) (F.steps folder.new) }
{
    let Ok(next) = make_beside(folder, path, 0) else {
        return only_name(like);
    };
    if !take_owner(folder, &next, like.owner)? {
        remove_open(folder, path, &next)?;
        return only_name(like);
    }
    folder.set_mode(&next, like.mode)?;
    Ok(Some(next))
}

/// No new file; an error where the text is kept under another name too, which writing in place would
/// change as well.
fn only_name<T: Drop>(like: Look) -> io::Result<Option<T>>
    ensures exact { OnOk result (like.names ≤ 1) }
    ensures none { IfOk result (λ o. o ≡ None) }
{
    if like.names > 1 {
        return Err(io::Error::from(ErrorKind::PermissionDenied));
    }
    Ok(None)
}
