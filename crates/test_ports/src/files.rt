//! A folder in memory that tells its steps.
ghost use Rattle.std.specs.Prelude.{◌≡◌, ◌<◌, ◌∷◌, IfOk, IfSome, OnErr, OnOk, length, string_bytes};
ghost use Rattle.test_ports.specs.FolderSteps.{folder_step_of};

use mg_files::LogLines;
use mgr_port::{End, Folder, LeftLog, Lock, Look, Opening, Owner, Spare, Standing};
use std::alloc::{AllocError, Global};
use std::io;
use std::io::ErrorKind;
use std::marker::Model;

/// A step that was made, with what was answered.
#[derive(Drop)]
pub(crate) enum Step {
    Looks(String, Option<Look>),
    Follows(String, Option<Look>),
    Resolves(String, String),
    LooksAt(usize, Look),
    Opens(usize, String, Opening),
    Locks(usize, Lock),
    Ends(usize, u64, Option<End>),
    EndsInNewline(usize, u64, bool),
    Adds(usize, Vec<u8>),
    Empties(usize),
    SetsMode(usize, u32),
    GivesTo(usize, Owner),
    Dates(usize, usize, u64),
    Syncs(usize),
    SyncsFolder(String),
    ReadsAll(usize, Vec<u8>),
    Reads(String, Vec<u8>),
    Links(String, String),
    Makes(String, Vec<u8>),
    Removes(String),
    Renames(String, String),
    Overwrites(usize, String),
}

/// The same, as a folder tells it.
#[derive(Drop)]
pub struct ToldStep {
    step: Step,
}

impl Model for ToldStep {
    ghost use Rattle.mgr_port.specs.Folder.{FolderStep};
    ghost use Rattle.test_ports.specs.FolderSteps.{folder_step_of};

    ghost Value = { FolderStep };

    ghost view = { λ told. folder_step_of told.step };
}

/// A plain file.
#[derive(Drop)]
struct File {
    bytes: Vec<u8>,
    /// Whether something else has it locked.
    is_locked: bool,
}

/// A name, and the file that stands under it; none if something stands there that is no file.
#[derive(Drop)]
struct Name {
    path: String,
    file: Option<usize>,
}

/// Files by their names. It tells its steps.
#[derive(Drop)]
pub struct MemoryFiles {
    alloc: Global,
    files: Vec<File>,
    names: Vec<Name>,
    /// The steps so far, the last one first.
    pub steps: Vec<ToldStep>,
}

impl MemoryFiles {
    /// A folder in which nothing stands.
    pub fn new(alloc: Global) -> MemoryFiles {
        MemoryFiles {
            alloc,
            files: Vec::new(alloc),
            names: Vec::new(alloc),
            steps: Vec::new(alloc),
        }
    }

    /// Puts a file of these bytes under a name, as another program would. It tells no step.
    pub fn put(&mut self, path: &str, bytes: &[u8]) -> Result<(), AllocError>
        ensures { self.new.steps.items ≡ self.old.steps.items }
    {
        let file = self.push_file(bytes)?;
        self.give_name(path, Some(file))
    }

    /// Puts something under a name that is no file.
    pub fn put_other(&mut self, path: &str) -> Result<(), AllocError>
        ensures { self.new.steps.items ≡ self.old.steps.items }
    {
        self.give_name(path, None)
    }

    /// The file of a name is locked by something else.
    pub fn lock_by_others(&mut self, path: &str)
        ensures { self.new.steps.items ≡ self.old.steps.items }
    {
        if let Some(index) = self.file_of(path) {
            if let Some(file) = self.files.get_mut(index) {
                file.is_locked = true;
            }
        }
    }

    /// The bytes of the file of a name.
    pub fn bytes(&self, path: &str) -> Option<&[u8]> {
        let file = self.files.get(self.file_of(path)?)?;
        Some(&file.bytes)
    }

    fn push_file(&mut self, bytes: &[u8]) -> Result<usize, AllocError>
        ensures { self.new.steps.items ≡ self.old.steps.items }
    {
        let index = self.files.as_slice().len();
        let bytes = Vec::from_slice(self.alloc, bytes)?;
        self.files.push(File {
            bytes,
            is_locked: false,
        })?;
        Ok(index)
    }

    /// What stands under a name is this from now on.
    fn give_name(&mut self, path: &str, file: Option<usize>) -> Result<(), AllocError>
        ensures { self.new.steps.items ≡ self.old.steps.items }
    {
        let name = String::from_str(self.alloc, path)?;
        self.take_name(path);
        self.names.push(Name { path: name, file })?;
        Ok(())
    }

    fn take_name(&mut self, path: &str)
        ensures { self.new.steps.items ≡ self.old.steps.items }
    {
        if let Some(index) = self.index_of(path) {
            drop(self.names.swap_remove(index));
        }
    }

    fn index_of(&self, path: &str) -> Option<usize>
        ensures { IfSome result (λ i. i < length self.now.names.items) }
    {
        self.names
            .iter()
            .position(|name| name.path.as_str() == path)
    }

    fn file_of(&self, path: &str) -> Option<usize> {
        let index = self.index_of(path)?;
        self.names[index].file
    }

    /// What a look at a file shows.
    fn look_of(&self, file: Option<usize>) -> Look {
        let mut names = 0;
        for name in &self.names {
            if name.file == file {
                names = u64::saturating_add(names, 1);
            }
        }
        let index = file.unwrap_or(0);
        let length = match self.files.get(index) {
            Some(file) => file.bytes.as_slice().len(),
            None => 0,
        };
        Look::of_file(file.is_some(), names, index as u64, length as u64)
    }

    fn found(&self, path: &str) -> Option<Look> {
        let index = self.index_of(path)?;
        Some(self.look_of(self.names[index].file))
    }

    fn copy_of(&self, path: &str) -> io::Result<String>
        ensures { IfOk result (λ copy. string_bytes copy ≡ path.now) }
    {
        Ok(String::from_str(self.alloc, path)?)
    }

    /// Notes a step.
    fn note(&mut self, step: Step) -> io::Result<()>
        ensures noted { OnOk result
            (self.new.steps.items ≡ folder_step_of step ∷ self.old.steps.items) }
        ensures same { OnErr result (self.new.steps.items ≡ self.old.steps.items) }
    {
        self.steps.insert(0, ToldStep { step })?;
        Ok(())
    }

    /// The file of a name; `NotFound` if there is none.
    fn file_there(&self, path: &str) -> io::Result<usize> {
        match self.file_of(path) {
            Some(file) => Ok(file),
            None => Err(io::Error::from(ErrorKind::NotFound)),
        }
    }

    /// `AlreadyExists` if something has a name.
    fn check_free(&self, path: &str) -> io::Result<()> {
        match self.index_of(path) {
            None => Ok(()),
            Some(_) => Err(io::Error::from(ErrorKind::AlreadyExists)),
        }
    }
}

impl Folder for MemoryFiles {
    ghost use Rattle.std.specs.Prelude.{Some};

    /// The index of a file.
    type File = usize;

    ghost steps = { λ folder. Some folder.steps.items };

    ghost file_of = { λ file. file };

    fn alloc(&self) -> Global {
        self.alloc
    }

    fn look<'p>(&mut self, path: &'p str) -> io::Result<Standing<'p>> {
        let found = self.found(path);
        self.note(Step::Looks(self.copy_of(path)?, found))?;
        Ok(Standing { path, found })
    }

    fn follow<'p>(&mut self, path: &'p str) -> io::Result<Standing<'p>> {
        let found = self.found(path);
        self.note(Step::Follows(self.copy_of(path)?, found))?;
        Ok(Standing { path, found })
    }

    /// There are no links.
    fn resolve(&mut self, path: &str) -> io::Result<String> {
        let target = self.copy_of(path)?;
        self.note(Step::Resolves(self.copy_of(path)?, self.copy_of(path)?))?;
        Ok(target)
    }

    fn look_at(&mut self, file: &usize) -> io::Result<Look> {
        let look = self.look_of(Some(*file));
        self.note(Step::LooksAt(*file, look))?;
        Ok(look)
    }

    fn open(&mut self, path: &str, opening: Opening) -> io::Result<usize> {
        let made = match opening {
            Opening::Read | Opening::Write | Opening::Add => None,
            Opening::Beside if self.index_of(path).is_some() => None,
            Opening::Beside | Opening::New(_) => {
                self.check_free(path)?;
                Some(self.push_file(&[])?)
            }
        };
        let file = match made {
            Some(file) => file,
            None => self.file_there(path)?,
        };
        let copy = self.copy_of(path)?;
        if made.is_some() {
            self.give_name(path, made)?;
        }
        self.note(Step::Opens(file, copy, opening))?;
        Ok(file)
    }

    fn lock(&mut self, file: &usize) -> io::Result<Lock> {
        let lock = match self.files.get(*file) {
            Some(file) if file.is_locked => Lock::Others,
            _ => Lock::Own,
        };
        self.note(Step::Locks(*file, lock))?;
        Ok(lock)
    }

    fn end_of(&mut self, file: &usize, length: u64) -> io::Result<Option<End>> {
        let end = match self.files.get(*file) {
            Some(file) => End::of_bytes(&file.bytes, length),
            None => None,
        };
        self.note(Step::Ends(*file, length, end))?;
        Ok(end)
    }

    fn ends_in_newline(&mut self, file: &usize, length: u64) -> io::Result<bool> {
        let is = match self.files.get(*file) {
            Some(file) => file.bytes.as_slice().last() == Some(&b'\n'),
            None => false,
        };
        self.note(Step::EndsInNewline(*file, length, is))?;
        Ok(is)
    }

    fn add_lines(
        &mut self,
        _path: &str,
        log: &usize,
        _left: &LeftLog,
        lines: &LogLines,
    ) -> io::Result<()> {
        self.write_lines(log, lines)
    }

    fn empty(&mut self, file: &usize) -> io::Result<()> {
        if let Some(opened) = self.files.get_mut(*file) {
            opened.bytes.clear();
        }
        self.note(Step::Empties(*file))
    }

    fn write(&mut self, file: &usize, bytes: &[u8]) -> io::Result<()> {
        let copy = Vec::from_slice(self.alloc, bytes)?;
        if let Some(opened) = self.files.get_mut(*file) {
            opened.bytes.extend_from_slice(bytes)?;
        }
        self.note(Step::Adds(*file, copy))
    }

    fn write_lines(&mut self, file: &usize, lines: &LogLines) -> io::Result<()> {
        self.write(file, &lines.to_vec()?)
    }

    fn set_mode(&mut self, file: &usize, mode: u32) -> io::Result<()> {
        self.note(Step::SetsMode(*file, mode))
    }

    fn give_to(&mut self, file: &usize, owner: Owner) -> io::Result<()> {
        self.note(Step::GivesTo(*file, owner))
    }

    fn date(&mut self, file: &usize, of: &usize, later: u64) -> io::Result<()> {
        self.note(Step::Dates(*file, *of, later))
    }

    fn sync(&mut self, file: &usize) -> io::Result<()> {
        self.note(Step::Syncs(*file))
    }

    fn sync_folder(&mut self, path: &str) -> io::Result<()> {
        self.note(Step::SyncsFolder(self.copy_of(path)?))
    }

    fn read_all(&mut self, file: &usize) -> io::Result<Vec<u8>> {
        let bytes = match self.files.get(*file) {
            Some(opened) => Vec::from_slice(self.alloc, &opened.bytes)?,
            None => Vec::new(self.alloc),
        };
        self.note(Step::ReadsAll(*file, Vec::from_slice(self.alloc, &bytes)?))?;
        Ok(bytes)
    }

    fn read(&mut self, path: &str) -> io::Result<Vec<u8>> {
        let file = self.file_there(path)?;
        let bytes = match self.files.get(file) {
            Some(file) => Vec::from_slice(self.alloc, &file.bytes)?,
            None => Vec::new(self.alloc),
        };
        let copy = Vec::from_slice(self.alloc, &bytes)?;
        self.note(Step::Reads(self.copy_of(path)?, copy))?;
        Ok(bytes)
    }

    fn link(&mut self, path: &str, name: &str) -> io::Result<()> {
        let file = self.file_there(path)?;
        self.check_free(name)?;
        let step = Step::Links(self.copy_of(path)?, self.copy_of(name)?);
        self.give_name(name, Some(file))?;
        self.note(step)
    }

    fn make(&mut self, name: &str, bytes: &[u8]) -> io::Result<()> {
        self.check_free(name)?;
        let step = Step::Makes(self.copy_of(name)?, Vec::from_slice(self.alloc, bytes)?);
        self.put(name, bytes)?;
        self.note(step)
    }

    fn remove(&mut self, spare: Spare<'_>) -> io::Result<()> {
        let step = Step::Removes(self.copy_of(spare.path())?);
        self.take_name(spare.path());
        self.note(step)
    }

    fn rename(&mut self, path: &str, spare: Spare<'_>) -> io::Result<()> {
        let file = self.file_there(path)?;
        let step = Step::Renames(self.copy_of(path)?, self.copy_of(spare.path())?);
        self.take_name(path);
        self.give_name(spare.path(), Some(file))?;
        self.note(step)
    }

    fn overwrite(&mut self, spare: Spare<'_>) -> io::Result<usize> {
        let file = self.file_there(spare.path())?;
        let step = Step::Overwrites(file, self.copy_of(spare.path())?);
        if let Some(opened) = self.files.get_mut(file) {
            opened.bytes.clear();
        }
        self.note(step)?;
        Ok(file)
    }
}
