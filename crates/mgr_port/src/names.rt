//! The names of a note's files.
ghost use Rattle.std.specs.Prelude.{◌≡◌, ◌++◌, IfOk, codes, string_bytes};
ghost use Rattle.mgr_port.specs.Names.{ArePathsOf, IsLogOf};

use crate::folder::Folder;
use rga_ops::{OutOfMemory, of_io};
use std::alloc::Global;

/// The paths of a note's files. All but the first are made of it.
#[derive(Drop)]
pub(crate) struct Paths {
    pub(crate) text: String,
    pub(crate) log: String,
    /// The next log, until it takes the log's name. Where there is no log yet it is locked in its
    /// place.
    pub(crate) next_log: String,
    /// The next text, until it takes the text's name.
    pub(crate) next_text: String,
}

impl Paths {
    /// Out of memory alone.
    pub(crate) fn new<F: Folder>(folder: &mut F, name: &str) -> Result<Paths, OutOfMemory>
        ensures paths { IfOk result (ArePathsOf name.now) }
        ensures log { IfOk result (λ paths. IsLogOf name.now (string_bytes paths.log)
            (F.steps folder.old) (F.steps folder.new)) }
    {
        let log = log_path(folder, name)?;
        let alloc = folder.alloc();
        Ok(Paths {
            text: path(alloc, name, "")?,
            next_log: path(alloc, log.as_str(), ".new")?,
            next_text: path(alloc, name, ".ops.text")?,
            log,
        })
    }

    /// The path of what is kept as refused of the log.
    pub(crate) fn refused(&self, alloc: Global) -> Result<String, OutOfMemory>
        ensures { IfOk result
            (λ path. string_bytes path ≡ string_bytes self.now.log ++ codes ".refused") }
    {
        path(alloc, self.log.as_str(), ".refused")
    }
}

/// The path of the log of a name. Where a link stands there, it is that of the log behind it: a new
/// log would take the place of the link alone, and who has the log under its own name would go on
/// with the old one.
fn log_path<F: Folder>(folder: &mut F, name: &str) -> Result<String, OutOfMemory>
    ensures { IfOk result (λ log. IsLogOf name.now (string_bytes log)
        (F.steps folder.old) (F.steps folder.new)) }
{
    let log = path(folder.alloc(), name, ".ops")?;
    match folder.look(log.as_str()) {
        Ok(standing) if standing.if_no_file().is_some() => {}
        _ => return Ok(log),
    }
    match folder.resolve(log.as_str()) {
        Ok(path) => Ok(path),
        Err(error) => match of_io(&error) {
            Some(memory) => Err(memory),
            // It leads to none.
            None => Ok(log),
        },
    }
}

/// A name with this behind it.
fn path(alloc: Global, name: &str, end: &str) -> Result<String, OutOfMemory>
    ensures { IfOk result (λ path. string_bytes path ≡ name.now ++ end.now) }
{
    Ok(format!(in alloc; "{name}{end}")?)
}
