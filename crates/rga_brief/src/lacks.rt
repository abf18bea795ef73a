//! The operations that another replica lacks.
ghost use Rattle.std.specs.Prelude.{◌≡◌, [], IfOk, IfErr};
ghost use Rattle.rga_brief.specs.Summary.{digests_at, lacks_by, missing};
ghost use Rattle.rga_brief.specs.Lacking.{lacks_between};

use crate::block::Block;
use crate::digests::{Digests, deleted, inserted};
use crate::summary::{Summary, summary_of};
use rga_ops::{Op, OutOfMemory};
use rga_store::{Listener, Teller};
use std::alloc::Global;
use std::marker::Model;

/// The operations of a store that another replica lacks, by the summary that it gives: those whose
/// block has another digest of their kind there, or none. The insertions come first, each part by
/// rising identifier. `Memory` alone.
///
/// Whatever a summary claims, nothing else is sent. It takes n log n steps for n operations, and the
/// store tells them twice: for the own digests, and for what is lacked.
pub fn missing<S: Teller>(
    alloc: Global,
    store: &S,
    summary: &Summary,
) -> Result<Vec<Op>, OutOfMemory>
    ensures ok { IfOk result (λ ops. ops.items ≡ missing (S.content store.now) summary.now) }
{
    let own = summary_of(alloc, store)?;
    let mut lacked = Lacked::new(alloc, &own, summary);
    store.tell_insertions(&mut lacked)?;
    store.tell_deletions(&mut lacked)?;
    Ok(lacked.ops)
}

/// Those of the operations that were told which a peer of this summary lacks, if the own summary is
/// this one. The digests of the last operation's block are kept: the next are mostly there too.
#[derive(Drop)]
struct Lacked<'a> {
    own: &'a Summary,
    peer: &'a Summary,
    ops: Vec<Op>,
    block: Block,
    own_digests: Option<Digests>,
    peer_digests: Option<Digests>,
}

impl<'a> Model for Lacked<'a> {
    ghost use Rattle.std.specs.Prelude.{◌≡◌};
    ghost use Rattle.rga_brief.specs.Summary.{digests_at};
    ghost use Rattle.rga_brief.specs.Lacking.{Lacking};

    ghost Value = { Lacking };

    ghost view = { λ l. record { own = l.own.now; peer = l.peer.now; ops = l.ops.items } };

    ghost invariant = { λ l. (l.own_digests ≡ digests_at l.own.now l.block)
        × (l.peer_digests ≡ digests_at l.peer.now l.block) };
}

impl<'a> Listener for Lacked<'a> {
    ghost use Rattle.rga_brief.specs.Lacking.{Lacks, lacks_nothing, lacks_on};

    ghost hears = { λ s ops t. Lacks s ops t };

    ghost hears_nothing = { λ s. lacks_nothing s };

    ghost hears_on = { λ s t u xs ys a b. lacks_on a b };

    fn hear(&mut self, op: &Op) -> Result<(), OutOfMemory> {
        if self.is_lacked(op) {
            self.ops.push(*op)?;
        }
        Ok(())
    }
}

impl<'a> Lacked<'a> {
    /// None yet.
    fn new(alloc: Global, own: &'a Summary, peer: &'a Summary) -> Lacked<'a>
        ensures { result ≡ record { own = own.now; peer = peer.now; ops = [] } }
    {
        let block = Block {
            replica: 0,
            number: 0,
        };
        Lacked {
            own,
            peer,
            ops: Vec::new(alloc),
            block,
            own_digests: own.digests_of(block),
            peer_digests: peer.digests_of(block),
        }
    }

    /// Whether an operation is lacked.
    fn is_lacked(&mut self, op: &Op) -> bool
        ensures exact { result ≡ lacks_between self.old.own self.old.peer op.now }
        ensures same { self.new ≡ self.old }
    {
        let block = Block::of(op.id());
        if self.block == block {
            return lacks_by(self.own_digests, self.peer_digests, op);
        }
        self.block = block;
        self.own_digests = self.own.digests_of(block);
        self.peer_digests = self.peer.digests_of(block);
        lacks_by(self.own_digests, self.peer_digests, op)
    }
}

/// Whether an operation is lacked, by the digests of its block here and at the peer.
fn lacks_by(own: Option<Digests>, peer: Option<Digests>, op: &Op) -> bool
    ensures { result ≡ lacks_by own peer op.now }
{
    match op {
        Op::Insert { .. } => inserted(peer) != inserted(own),
        Op::Delete { .. } => deleted(peer) != deleted(own),
    }
}
