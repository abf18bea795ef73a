//! Files in memory that are read by their names.
ghost use Rattle.std.specs.Prelude.{◌≡◌};
ghost use Rattle.std.specs.Option.{option_map};
ghost use Rattle.test_ports.specs.Files.{file_of};

use mgr_show::{ShowFault, Sources};
use std::alloc::{AllocError, Global};

/// A file that is read by its name.
#[derive(Drop)]
struct File {
    name: String,
    bytes: Vec<u8>,
}

/// Files by their names, which tell their bytes. A name that is not there can't be read.
#[derive(Drop)]
pub struct MemorySources {
    files: Vec<File>,
    /// How many reads failed.
    pub failures: u64,
}

impl MemorySources {
    /// No files.
    pub fn new(alloc: Global) -> MemorySources {
        MemorySources {
            files: Vec::new(alloc),
            failures: 0,
        }
    }

    /// With one file more, behind those of its name.
    pub fn push(&mut self, alloc: Global, name: &str, bytes: &[u8]) -> Result<(), AllocError> {
        let name = String::from_str(alloc, name)?;
        let bytes = Vec::from_slice(alloc, bytes)?;
        self.files.push(File { name, bytes })?;
        Ok(())
    }
}

/// The first file of a name.
fn find_file<'a>(files: &'a [File], name: &str) -> Option<&'a Vec<u8>>
    ensures { option_map (λ bytes. bytes.now.items) result ≡ file_of files.now name.now }
{
    for file in files {
        if file.name.as_str() == name {
            return Some(&file.bytes);
        }
    }
    None
}

impl Sources for MemorySources {
    ghost use Rattle.test_ports.specs.Files.{file_of};

    ghost contents = { λ s. file_of s.files.items };

    ghost failures = { λ s. s.failures };

    fn read(&mut self, alloc: Global, name: &str) -> Result<Vec<u8>, ShowFault> {
        let Some(bytes) = find_file(&self.files, name) else {
            self.failures = self.failures.saturating_add(1);
            return Err(ShowFault::Read);
        };
        let copy = Vec::from_slice(alloc, bytes)?;
        Ok(copy)
    }
}
