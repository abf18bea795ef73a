//! What a report says.
use mg_plain::Chars;
use rga_lines::{DeletionRun, Run};
use rga_ops::{Id, Op};
use std::marker::Model;

/// Identifiers after which the cursors of others stand. The root stands for the front.
#[derive(Drop)]
pub struct Places {
    pub all: Vec<Id>,
}

impl Model for Places {
    ghost use Rattle.std.specs.Prelude.{List};
    ghost use Rattle.rga_ops.specs.Identifier.{Identifier};

    ghost Value = { List Identifier };

    ghost view = { λ p. p.all.items };
}

/// What a report says.
#[derive(Drop)]
pub enum Report {
    /// An operation of another.
    One(Op),
    /// A run of insertions of another.
    Run(Run),
    /// A run of deletions of another.
    Deletions(DeletionRun),
    /// Pasted text. If there is more, what the next one brings comes behind it.
    Paste {
        text: Chars,
        more: bool,
    },
    /// The characters from `lo` up to `hi` of the text with the number `base` are replaced. If there
    /// is more, what the next one brings comes behind the text.
    Splice {
        base: u64,
        lo: u64,
        hi: u64,
        text: Chars,
        more: bool,
    },
    /// The size of the screen.
    Size {
        rows: u64,
        columns: u64,
    },
    /// The places of others.
    Places(Places),
    /// Nobody types: all is to be saved.
    Rest,
}
