//! What a line says.
use crate::deletion_run::DeletionRun;
use crate::run::Run;
use rga_ops::Op;

/// The most bytes of a line, its newline left out.
pub const MAX_LINE: usize = 65536;

/// What a line says.
#[derive(Drop)]
pub enum Line {
    /// An operation.
    One(Op),
    /// A run of insertions.
    Run(Run),
    /// A run of deletions.
    Deletions(DeletionRun),
    /// The head of an exchange.
    Head,
    /// The end of an exchange of so many operations.
    Last(u64),
}
