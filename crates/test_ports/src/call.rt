//! Calls that were made.
use mg_files::{CallKind, Found};
use std::alloc::{AllocError, Global};
use std::marker::Model;

/// A call that is told, as it was made, whether it was answered `Ok`, and the files that a load then
/// answered.
#[derive(Drop)]
pub struct MadeCall {
    pub kind: CallKind,
    pub name: String,
    pub bytes: Vec<u8>,
    pub answered: bool,
    pub found: Option<Found>,
}

impl Model for MadeCall {
    ghost use Rattle.std.specs.String.{string_bytes};
    ghost use Rattle.mg_files.specs.Calls.{Call};

    ghost Value = { Call };

    ghost view = { λ made. record {
      kind = made.kind;
      name = string_bytes made.name;
      bytes = made.bytes.items;
      answered = made.answered;
      found = made.found;
    } };
}

impl MadeCall {
    /// Adds the call to a line, as a word; with how many bytes it has, where it writes a file; `!`
    /// where it was refused.
    fn push_to(&self, line: &mut String, alloc: Global) -> Result<(), AllocError> {
        let (word, writes) = word_of(self.kind);
        line.push_str(word)?;
        if writes {
            push_length(line, alloc, self.bytes.len())?;
        }
        line.push_str(if self.answered { "" } else { "!" })
    }
}

/// The word of a kind of call, and whether such a call writes a file.
fn word_of(kind: CallKind) -> (&'static str, bool) {
    match kind {
        CallKind::Load => (" load", false),
        CallKind::Append => (" append", true),
        CallKind::Replace => (" replace", true),
        CallKind::PutText => (" text", true),
        CallKind::Connect => (" connect", false),
        CallKind::Accept => (" accept", false),
        CallKind::Finish => (" finish", false),
    }
}

fn push_length(line: &mut String, alloc: Global, length: usize) -> Result<(), AllocError> {
    match format!(in alloc; " {length}") {
        Ok(number) => line.push_str(number.as_str()),
        Err(_) => Err(AllocError),
    }
}

/// Adds calls to a line, in words.
pub(crate) fn push_calls(
    line: &mut String,
    alloc: Global,
    calls: &[MadeCall],
) -> Result<(), AllocError> {
    for call in calls {
        call.push_to(line, alloc)?;
    }
    Ok(())
}
