//! What a replica knows, in short, the operations that another lacks, and an exchange in short.
//!
//! Two replicas that connect need not send all that they hold. One sends a `Summary` first: for each
//! block of 512 counters of a replica a digest of its insertions and one of its deletions. The other
//! answers with the operations of each block whose digest is not its own.
//!
//! A summary is told claim by claim, each a line of JSON: the digests of a block, of its insertions
//! and of its deletions. So each line is short, however much is known. `summary_lines` lists the
//! claims of a store's summary, and the line that counts them, and `send_lines` writes them;
//! `hear_summary` reads what a peer writes so, and `send_missing` then writes an exchange of what
//! the peer lacks by it. The crate stands on rga_ops, on the traits of rga_store, of which each
//! operation is looked at as a store tells it, on serde_json for the JSON, on rga_lines for lines,
//! and on rga_exchange for devices and the exchange. The layer above may rest on the contracts, for
//! any store and any device that tells its bytes: a line that is written says its claim, and what any
//! other text says is one total function of it; what is written is exactly the claims of the one
//! summary of the store; what is heard is one total function of the bytes, however the reads cut
//! them; and on `laws`: whatever a summary claims, nothing is sent but what the store holds; a
//! summary comes back from its claims, and is heard as it was told; and if digests tell blocks
//! apart, what is missing is taken, or refused for a conflict, exactly as all would be.
#![tactic(auto)]

mod block;
mod claim;
mod claim_line;
mod claims;
mod digests;
mod hearing;
mod lacks;
pub mod laws;
mod reading;
mod summary;
mod telling;
mod told_digests;
mod writing;

pub use block::Block;
pub use claim::Claim;
pub use claims::{claims_of, summary_from};
pub use digests::Digests;
pub use hearing::hear_summary;
pub use lacks::missing;
pub use reading::read_claim;
pub use summary::{Summary, summary_of};
pub use telling::{send_lines, send_missing, summary_lines};
pub use writing::write_claim;
