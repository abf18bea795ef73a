//! The files of one note, as this port found and left them.
ghost use Rattle.std.specs.Option.{option_map};
ghost use Rattle.std.specs.Prelude.{◌≡◌, ◌⊎◌, ℕ, Option, None, IfOk, IfSome, IsSomeAnd, OnErr, OnOk, string_bytes};
ghost use Rattle.mgr_port.specs.Disk.{steps_to};
ghost use Rattle.mgr_port.specs.Folder.{Follows, IsQuiet, after};
ghost use Rattle.mgr_port.specs.Growth.{AddsFront, IsAdded};
ghost use Rattle.mgr_port.specs.Locks.{HoldsInItsPlace, IsTaken, LocksNote};
ghost use Rattle.mgr_port.specs.Notes.{KeepsPlace, Leaves, LeavesLog, LoadsLog, MakesLog, MakesRoomIf, MayRemoveIf, NamesLog};
ghost use Rattle.mgr_port.specs.Notes.{ReadsLog, TakesRights, closed, old_for};
ghost use Rattle.mgr_port.specs.Spares.{ChangesOnlyAt, IsOfFile, PutsLogOnly, PutsOnlyAt, SetsRights, WaitsBeside};
ghost use Rattle.mgr_port.specs.Texts.{IsOwnAlone, IsOwnBeside, KeepsOwn, PutsText, TriesText};
ghost use Rattle.mgr_port.specs.declared.spare.Look.{Look};

use crate::files::{OWN, take_mode};
use crate::folder::Folder;
use crate::locking::{TRIES, hold_empty, open_beside, open_locked, stands_for, take_beside};
use crate::log::Log;
use crate::names::Paths;
use crate::spare::Look;
use crate::staged::{Named, Old, Staged, put_log};
use crate::text::Text;
use crate::vacating::remove_open;
use mg_files::{Found, LogLines};
use std::io;
use std::io::ErrorKind;

/// A note under its name. What is open of its files is locked.
#[derive(Drop)]
pub(crate) struct Note<T> {
    pub(crate) paths: Paths,
    /// The log, where this port has read or written one.
    log: Option<Log<T>>,
    /// The next log, where it is open.
    next: Option<T>,
    text: Text<T>,
}

impl<T: Drop> Note<T> {
    /// A note of which nothing was read and nothing is locked.
    pub(crate) fn new(paths: Paths) -> Note<T>
        ensures paths { result.paths ≡ paths }
        ensures log { result.log ≡ None }
        ensures next { result.next ≡ None }
    {
        Note {
            paths,
            log: None,
            next: None,
            text: Text::new(),
        }
    }

    /// Closes what was open, locks the files, and reads the log; the text too where there is no log,
    /// and where it is not known as this port's own. Where that fails nothing stays locked.
    pub(crate) fn load<F: Folder<File = T>>(&mut self, folder: &mut F) -> io::Result<Found>
        ensures read { IfOk result (λ found. IfSome found.log (λ bytes. IsSomeAnd self.new.log
            (λ log. LoadsLog (F.file_of log.file) (string_bytes self.old.paths.log)
            (string_bytes self.old.paths.next_log) bytes log.left (F.steps folder.new)))) }
        ensures none { IfOk result (λ found. found.log ≡ None → self.new.log ≡ None) }
        ensures held { IfOk result (λ found. found.log ≡ None → IfSome self.new.next (λ next.
            KeepsPlace (F.file_of next) (string_bytes self.old.paths.next_log)
            (string_bytes self.old.paths.log) (F.steps folder.new))) }
        ensures only { ChangesOnlyAt (string_bytes self.old.paths.next_log)
            (F.steps folder.old) (F.steps folder.new) }
        ensures beside { IfOk result (λ found. IfSome found.log (λ bytes. IsSomeAnd self.new.log
            (λ log. IsOwnBeside (option_map F.file_of self.new.text.file)
            (string_bytes self.old.paths.text) log.left.stamp None self.new.text.own
            (F.steps folder.new) bytes))) }
        ensures alone { IfOk result (λ found. found.log ≡ None
            → IsOwnAlone (option_map F.file_of self.new.text.file) self.new.text.own
            (string_bytes self.old.paths.text) found.text (F.steps folder.new)) }
        ensures log { OnErr result (self.new.log ≡ None) }
        ensures next { OnErr result (self.new.next ≡ None) }
        ensures own { OnErr result (self.new.text.own ≡ None) }
        ensures paths { self.new.paths ≡ self.old.paths }
    {
        self.close();
        match self.try_load(folder) {
            Ok(found) => Ok(found),
            Err(error) => {
                self.leave(folder);
                self.close();
                Err(error)
            }
        }
    }

    /// Closes what is open, which is not locked any more.
    fn close(&mut self)
        ensures log { self.new.log ≡ None }
        ensures next { self.new.next ≡ None }
        ensures own { self.new.text.own ≡ None }
        ensures paths { self.new.paths ≡ self.old.paths }
    {
        self.log = None;
        self.next = None;
        self.text = Text::new();
    }

    /// The same, where nothing is open. Where that fails the files that were locked may stay so.
    fn try_load<F: Folder<File = T>>(&mut self, folder: &mut F) -> io::Result<Found>
        ensures read { IfOk result (λ found. IfSome found.log (λ bytes. IsSomeAnd self.new.log
            (λ log. LoadsLog (F.file_of log.file) (string_bytes self.old.paths.log)
            (string_bytes self.old.paths.next_log) bytes log.left (F.steps folder.new)))) }
        ensures none { IfOk result
            (λ found. found.log ≡ None → self.new.log ≡ self.old.log) }
        ensures held { IfOk result (λ found. found.log ≡ None → IfSome self.new.next (λ next.
            KeepsPlace (F.file_of next) (string_bytes self.old.paths.next_log)
            (string_bytes self.old.paths.log) (F.steps folder.new))) }
        ensures only { ChangesOnlyAt (string_bytes self.old.paths.next_log)
            (F.steps folder.old) (F.steps folder.new) }
        ensures beside { IfOk result (λ found. IfSome found.log (λ bytes. IsSomeAnd self.new.log
            (λ log. IsOwnBeside (option_map F.file_of self.new.text.file)
            (string_bytes self.old.paths.text) log.left.stamp self.old.text.own
            self.new.text.own (F.steps folder.new) bytes))) }
        ensures alone { IfOk result (λ found. found.log ≡ None
            → IsOwnAlone (option_map F.file_of self.new.text.file) self.new.text.own
            (string_bytes self.old.paths.text) found.text (F.steps folder.new)) }
        ensures paths { self.new.paths ≡ self.old.paths }
    {
        let (log, next) = lock_log(folder, &self.paths)?;
        self.next = next;
        let Some(file) = log else {
            let text = self.text.load(folder, self.paths.text.as_str())?;
            return Ok(Found { log: None, text });
        };
        let (log, bytes) = read_log(folder, file, self.paths.next_log.as_str())?;
        let text = self
            .text
            .take_beside(folder, self.paths.text.as_str(), log.left)?;
        self.log = Some(log);
        Ok(Found {
            log: Some(bytes),
            text,
        })
    }

    /// Adds lines at the end of the log, which is made where there is none; whenever the machine
    /// stops then, it is there with all of the lines or not at all.
    pub(crate) fn append<F: Folder<File = T>>(
        &mut self,
        folder: &mut F,
        lines: &LogLines,
    ) -> io::Result<()>
        ensures added { OnOk result (IfSome self.old.log (λ old. IfSome self.new.log (λ log.
            (log.file ≡ old.file) × IsAdded (F.file_of old.file)
            (string_bytes self.old.paths.log) old.left lines.now log.left
            (F.steps folder.old) (F.steps folder.new)))) }
        ensures begun { IfSome self.old.log (λ old. OnErr result (AddsFront
            (F.file_of old.file) lines.now (F.steps folder.old) (F.steps folder.new))) }
        ensures made { self.old.log ≡ None → OnOk result (IsSomeAnd self.new.log (λ log.
            MakesLog None (F.file_of log.file) (string_bytes self.old.paths.next_log)
            (string_bytes self.old.paths.log) (string_bytes self.old.paths.text) None
            lines.now log.left (after (Follows (string_bytes self.old.paths.log) None)
            (F.steps folder.old)) (F.steps folder.new))) }
        ensures failed { self.old.log ≡ None → OnErr result
            (IsQuiet (F.steps folder.old) (F.steps folder.new) ⊎ LeavesLog None
            (string_bytes self.old.paths.next_log) (string_bytes self.old.paths.log)
            (string_bytes self.old.paths.text) None lines.now
            (after (Follows (string_bytes self.old.paths.log) None) (F.steps folder.old))
            (F.steps folder.new)) }
        ensures only { PutsLogOnly self.old.paths (F.steps folder.old) (F.steps folder.new) }
        ensures same { IfSome self.old.log (λ _. OnErr result (self.new.log ≡ self.old.log)) }
        ensures paths { self.new.paths ≡ self.old.paths }
        ensures text { self.new.text ≡ self.old.text }
    {
        let path = self.paths.log.as_str();
        if let Some(log) = &mut self.log {
            return log.append(folder, path, lines);
        }
        if folder.follow(path)?.found.is_some() {
            return Err(io::Error::from(ErrorKind::AlreadyExists));
        }
        self.make_log(folder, lines, None)
    }

    /// Makes these lines the whole log. What stands there is kept.
    pub(crate) fn replace<F: Folder<File = T>>(
        &mut self,
        folder: &mut F,
        lines: &LogLines,
    ) -> io::Result<()>
        ensures made { OnOk result (IsSomeAnd self.new.log (λ log. (standing : Option Look)
            × MakesLog (option_map (λ log. F.file_of log.file) self.old.log) (F.file_of log.file)
            (string_bytes self.old.paths.next_log)
            (string_bytes self.old.paths.log) (string_bytes self.old.paths.text) standing
            lines.now log.left (after (Follows (string_bytes self.old.paths.log) standing)
            (F.steps folder.old)) (F.steps folder.new))) }
        ensures failed { OnErr result (IsQuiet (F.steps folder.old) (F.steps folder.new)
            ⊎ ((standing : Option Look) × LeavesLog
            (option_map (λ log. F.file_of log.file) self.old.log)
            (string_bytes self.old.paths.next_log) (string_bytes self.old.paths.log)
            (string_bytes self.old.paths.text) standing lines.now
            (after (Follows (string_bytes self.old.paths.log) standing) (F.steps folder.old))
            (F.steps folder.new))) }
        ensures only { PutsLogOnly self.old.paths (F.steps folder.old) (F.steps folder.new) }
        ensures paths { self.new.paths ≡ self.old.paths }
        ensures text { self.new.text ≡ self.old.text }
    {
        let standing = folder.follow(self.paths.log.as_str())?.found;
        self.make_log(folder, lines, standing)
    }

    /// Writes lines beside the log, under a name that then becomes the log's. The new log is locked
    /// before, and the one that stands there is kept.
    fn make_log<F: Folder<File = T>>(
        &mut self,
        folder: &mut F,
        lines: &LogLines,
        standing: Option<Look>,
    ) -> io::Result<()>
        ensures made { OnOk result (IsSomeAnd self.new.log (λ log.
            MakesLog (option_map (λ log. F.file_of log.file) self.old.log) (F.file_of log.file)
            (string_bytes self.old.paths.next_log)
            (string_bytes self.old.paths.log) (string_bytes self.old.paths.text) standing
            lines.now log.left (F.steps folder.old) (F.steps folder.new))) }
        ensures failed { OnErr result (LeavesLog
            (option_map (λ log. F.file_of log.file) self.old.log)
            (string_bytes self.old.paths.next_log)
            (string_bytes self.old.paths.log) (string_bytes self.old.paths.text) standing
            lines.now (F.steps folder.old) (F.steps folder.new)) }
        ensures only { PutsLogOnly self.old.paths (F.steps folder.old) (F.steps folder.new) }
        ensures paths { self.new.paths ≡ self.old.paths }
        ensures text { self.new.text ≡ self.old.text }
    {
        self.make_room(folder)?;
        let path = self.paths.next_log.as_str();
        let next = take_next(folder, path, &mut self.next)?;
        let log = file_of(&self.log);
        match name_next(folder, &self.paths, &next, log, lines, standing) {
            Ok(named) => {
                let length = folder.look_at(&next)?.stamp.length;
                self.log = Some(Log::read_to(folder, next, length)?);
                named.settled()
            }
            Err(error) => {
                self.next = Some(next);
                Err(error)
            }
        }
    }

    /// Takes the path of the next log from the log, if it has that.
    fn make_room<F: Folder<File = T>>(&self, folder: &mut F) -> io::Result<()>
        ensures made { OnOk result (MakesRoomIf (option_map (λ log. F.file_of log.file) self.now.log)
            (string_bytes self.now.paths.next_log) (F.steps folder.old) (F.steps folder.new)) }
        ensures only { ChangesOnlyAt (string_bytes self.now.paths.next_log)
            (F.steps folder.old) (F.steps folder.new) }
    {
        match &self.log {
            Some(log) => log.make_room(folder, self.paths.next_log.as_str()),
            None => Ok(()),
        }
    }

    /// Makes these bytes the text. What stands there is kept, unless this port read it or put it, or it
    /// is the same.
    pub(crate) fn put_text<F: Folder<File = T>>(
        &mut self,
        folder: &mut F,
        bytes: &[u8],
    ) -> io::Result<()>
        ensures put { OnOk result (PutsText (option_map (λ log. F.file_of log.file) self.old.log)
            (option_map F.file_of self.new.text.file)
            (string_bytes self.old.paths.next_text) (string_bytes self.old.paths.text)
            bytes.now self.old.text.own self.new.text.own
            (F.steps folder.old) (F.steps folder.new)) }
        ensures only { (over : ℕ) × TriesText over
            (option_map (λ log. F.file_of log.file) self.old.log)
            (string_bytes self.old.paths.next_text) (string_bytes self.old.paths.text)
            bytes.now self.old.text.own (F.steps folder.old) (F.steps folder.new) }
        ensures own { OnErr result ((file : ℕ) × KeepsOwn file
            (option_map (λ log. F.file_of log.file) self.old.log)
            (string_bytes self.old.paths.next_text) (string_bytes self.old.paths.text)
            bytes.now self.old.text.own self.new.text.own (F.steps folder.new)) }
        ensures log { self.new.log ≡ self.old.log }
        ensures next { self.new.next ≡ self.old.next }
        ensures paths { self.new.paths ≡ self.old.paths }
    {
        self.text
            .put(folder, &self.paths, bytes, file_of(&self.log))
    }

    /// Closes the file whose name the text took last, if it is open.
    pub(crate) fn close_replaced(&mut self)
        ensures { self.new ≡ closed self.old }
    {
        self.text.replaced = None;
    }

    /// Removes what was only locked in the place of a log that was never made, and a name that the log
    /// may have kept beside its own.
    pub(crate) fn leave<F: Folder<File = T>>(&self, folder: &mut F)
        ensures { Leaves (option_map F.file_of self.now.next)
            (option_map (λ log. F.file_of log.file) self.now.log)
            (string_bytes self.now.paths.next_log)
            (F.steps folder.old) (F.steps folder.new) }
    {
        self.leave_next(folder);
        if let Some(log) = &self.log {
            log.give_up(folder, self.paths.next_log.as_str());
        }
    }

    fn leave_next<F: Folder<File = T>>(&self, folder: &mut F)
        ensures { MayRemoveIf IsOfFile (option_map F.file_of self.now.next)
            (string_bytes self.now.paths.next_log) (F.steps folder.old) (F.steps folder.new) }
    {
        if let Some(next) = &self.next {
            let _ = remove_open(folder, self.paths.next_log.as_str(), next);
        }
    }
}

/// The file of a log, if it is open.
fn file_of<T: Drop>(log: &Option<Log<T>>) -> Option<&T>
    ensures { (f : T → ℕ) → option_map (λ file. f file.now) result
        ≡ option_map (λ log. f log.file) log.now }
{
    match log {
        Some(log) => Some(&log.file),
        None => None,
    }
}

/// The log, locked; where there is none the file that will be it is locked. `WouldBlock` if that is
/// always `Interrupted`.
fn lock_log<F: Folder>(
    folder: &mut F,
    paths: &Paths,
) -> io::Result<(Option<F::File>, Option<F::File>)>
    ensures locked { IfOk result (λ locked. LocksNote F.file_of paths.now locked.0 locked.1
        (F.steps folder.new)) }
    ensures only { ChangesOnlyAt (string_bytes paths.now.next_log)
        (F.steps folder.old) (F.steps folder.new) }
{
    for _ in 0..TRIES {
        match try_log(folder, paths) {
            Err(error) if error.kind() == ErrorKind::Interrupted => {}
            answer => return answer,
        }
    }
    Err(io::Error::from(ErrorKind::WouldBlock))
}

fn try_log<F: Folder>(
    folder: &mut F,
    paths: &Paths,
) -> io::Result<(Option<F::File>, Option<F::File>)>
    ensures locked { IfOk result (λ locked. LocksNote F.file_of paths.now locked.0 locked.1
        (F.steps folder.new)) }
    ensures only { ChangesOnlyAt (string_bytes paths.now.next_log)
        (F.steps folder.old) (F.steps folder.new) }
{
    let log = paths.log.as_str();
    if let Some(file) = open_locked(folder, log, true)? {
        return Ok((Some(file), None));
    }
    let path = paths.next_log.as_str();
    // In a folder that takes no file, a note can be looked at all the same.
    let Ok(file) = open_beside(folder, path) else {
        return Ok((None, None));
    };
    match lock_next(folder, path, &file, log) {
        Ok(()) => Ok((None, Some(file))),
        Err(error) if error.kind() == ErrorKind::PermissionDenied => Ok((None, None)),
        Err(error) => Err(error),
    }
}

/// All of a log that is open. Of what was killed when it gave the log its name, it may have kept the
/// path of the next one too.
fn read_log<T: Drop, F: Folder<File = T>>(
    folder: &mut F,
    file: T,
    path: &str,
) -> io::Result<(Log<T>, Vec<u8>)>
    ensures file { IfOk result (λ read. read.0.file ≡ file) }
    ensures read { IfOk result (λ read. ReadsLog (F.file_of file) path.now read.1.items read.0.left
        (F.steps folder.old) (F.steps folder.new)) }
    ensures only { ChangesOnlyAt path.now (F.steps folder.old) (F.steps folder.new) }
{
    let bytes = folder.read_all(&file)?;
    let log = Log::read_to(folder, file, bytes.len() as u64)?;
    log.give_up(folder, path);
    Ok((log, bytes))
}

/// Locks the next log, which is empty. `Interrupted` as of `hold_empty`, and if the log is there by
/// now.
fn lock_next<F: Folder>(folder: &mut F, path: &str, next: &F::File, log: &str) -> io::Result<()>
    ensures held { OnOk result
        (HoldsInItsPlace (F.file_of next.now) path.now log.now
        (F.steps folder.old) (F.steps folder.new)) }
    ensures only { ChangesOnlyAt path.now (F.steps folder.old) (F.steps folder.new) }
{
    hold_empty(folder, path, next)?;
    if folder.follow(log)?.found.is_some() {
        let _ = remove_open(folder, path, next);
        return Err(io::Error::from(ErrorKind::Interrupted));
    }
    Ok(())
}

/// The next log of a path, locked: the one that is open, if the path still stands for it.
fn take_next<F: Folder>(
    folder: &mut F,
    path: &str,
    open: &mut Option<F::File>,
) -> io::Result<F::File>
    ensures taken { IfOk result
        (λ file. IsTaken (F.file_of file) path.now (F.steps folder.old) (F.steps folder.new)) }
    ensures only { ChangesOnlyAt path.now (F.steps folder.old) (F.steps folder.new) }
{
    if let Some(next) = open.take() {
        if stands_for(folder, path, &next)? {
            return Ok(next);
        }
    }
    take_beside(folder, path)
}

/// Writes all of the next log, and gives it the log's name. What stands there is kept.
fn name_next<F: Folder>(
    folder: &mut F,
    paths: &Paths,
    next: &F::File,
    log: Option<&F::File>,
    lines: &LogLines,
    standing: Option<Look>,
) -> io::Result<Named>
    ensures named { IfOk result (λ named. NamesLog (F.file_of next.now)
        (option_map (λ l. F.file_of l.now) log.entry) (string_bytes paths.now.next_log)
        (string_bytes paths.now.log) (string_bytes paths.now.text) standing
        (steps_to named lines.now) (F.steps folder.old) (F.steps folder.new)) }
    ensures unnamed { OnErr result (WaitsBeside (F.file_of next.now)
        (string_bytes paths.now.next_log) (string_bytes paths.now.log)
        (F.steps folder.old) (F.steps folder.new)) }
    ensures only { PutsOnlyAt (F.file_of next.now) (string_bytes paths.now.next_log)
        (string_bytes paths.now.log) (F.steps folder.old) (F.steps folder.new) }
{
    take_rights(folder, next, standing, paths.text.as_str())?;
    let staged = Staged {
        path: paths.next_log.as_str(),
        name: paths.log.as_str(),
        later: None,
        old: old_for(standing),
    };
    put_log(folder, next, log, staged, lines)
}

/// What stands under the name of a log.
fn old_for(standing: Option<Look>) -> Old<'static>
    ensures { result ≡ old_for standing }
{
    match standing {
        Some(_) => Old::Log,
        None => Old::Nothing,
    }
}

/// Gives a new log the owner and the rights of the log that stands there, or else of the text; with
/// none only its owner may read it.
fn take_rights<F: Folder>(
    folder: &mut F,
    log: &F::File,
    standing: Option<Look>,
    text: &str,
) -> io::Result<()>
    ensures taken { OnOk result
        (TakesRights (F.file_of log.now) standing text.now
        (F.steps folder.old) (F.steps folder.new)) }
    ensures only { SetsRights (F.file_of log.now) (F.steps folder.old) (F.steps folder.new) }
{
    if let Some(like) = standing {
        return take_mode(folder, log, like);
    }
    match folder.follow(text)?.found {
        Some(like) => take_mode(folder, log, like),
        None => folder.set_mode(log, OWN),
    }
}
