//! What keeps a text.
ghost use Rattle.std.specs.Prelude.{◌≡◌, ◌≢◌, ◌≤◌, ◌↔◌, length, take, drop, slice_get, true, false, Ok, Err, IfOk, IfErr, OnOk, MatchResult, string_bytes, encode_utf8_all};
ghost use Rattle.std.specs.FinMap as finite_map;
ghost use Rattle.std.specs.FinSet as finite_set;
ghost use Rattle.rga_ops.specs.Prelude.{Identifier, IsSound, clock_of, join, known_count, merge_answer, nothing, operations, order, place, text, Memory};
ghost use Rattle.rga_ops.specs.Content.{element_at, Holds};
ghost use Rattle.rga_ops.specs.Order.{waiting};
ghost use Rattle.rga_ops.specs.Places.{visible};
ghost use Rattle.rga_ops.specs.declared.op.Op.TheVariants.{Delete};
ghost use Rattle.rga_store.specs.Limit.{is_limit};
ghost use Rattle.rga_store.specs.Taking.{TakesAllOf};

use crate::taker::Taker;
use rga_ops::{Id, Op, OutOfMemory, Refusal};
use std::alloc::Global;

/// The greatest limit of a store.
pub const MAX_LIMIT: usize = 1000000;

/// A store of a text: what it holds, and its elements in order. All that it answers follows from
/// its content and its limit.
pub trait TextStore: Taker + Sized + Drop {
    /// An empty store that may know `limit` identifiers. `Range` unless that is 1 to `MAX_LIMIT`;
    /// then `Memory`.
    fn new(alloc: Global, limit: usize) -> Result<Self, Refusal>
        ensures range { is_limit limit ≡ false → result ≡ Err Refusal.Range }
        ensures made { is_limit limit ≡ true → MatchResult result
            (λ s. (Self.content s ≡ nothing) × (Self.limit s ≡ limit)) (λ e. e ≡ Memory) };

    /// The parent and the character of an element that is inserted. Takes no memory.
    fn get(&self, id: Id) -> Option<(Id, char)>
        ensures { result ≡ element_at (Self.content self.now) id };

    /// Whether an identifier is deleted, be it inserted or not. Takes no memory.
    fn is_deleted(&self, id: Id) -> bool
        ensures { result ≡ finite_set.contains (Self.content self.now).deleted id };

    /// How many identifiers are inserted, deleted or both. Takes no memory.
    fn known(&self) -> usize
        ensures known { result ≡ known_count (Self.content self.now) }
        ensures within { result ≤ Self.limit self.now }
        ensures sound { IsSound (Self.content self.now) };

    /// Whether an operation is in the content. Takes no memory.
    fn contains(&self, op: &Op) -> bool
        ensures { (result ≡ true) ↔ Holds (Self.content self.now) op.now };

    /// The greatest counter among the insertions, their parents and the deletions; 0 where there
    /// is none. Takes no memory.
    fn clock(&self) -> u64
        ensures { result ≡ clock_of (Self.content self.now) };

    /// How many identifiers it may know. Takes no memory.
    fn limit(&self) -> usize
        ensures limit { result ≡ Self.limit self.now }
        ensures range { is_limit result ≡ true };

    /// The complete elements, deleted ones too, in the order of their root paths: a parent before
    /// its children, and of siblings the one with the larger identifier first (Attiya and others
    /// 2016). `Memory` alone.
    fn order(&self) -> Result<Vec<Id>, OutOfMemory>
        ensures ok { IfOk result (λ ids. ids.items ≡ order (Self.content self.now)) };

    /// The characters of the visible elements, in order. `Memory` alone.
    fn text(&self, alloc: Global) -> Result<Vec<char>, OutOfMemory>
        ensures ok { IfOk result (λ chars. chars.items ≡ text (Self.content self.now)) };

    /// The same in UTF-8. `Memory` alone.
    fn text_string(&self, alloc: Global) -> Result<String, OutOfMemory>
        ensures ok { IfOk result (λ string.
            string_bytes string ≡ encode_utf8_all (text (Self.content self.now))) };

    /// The visible elements, in order, and their characters. `Memory` alone.
    fn visible(&self, alloc: Global) -> Result<(Vec<Id>, Vec<char>), OutOfMemory>
        ensures elements { IfOk result (λ p. p.0.items ≡ visible (Self.content self.now)) }
        ensures characters { IfOk result (λ p. p.1.items ≡ text (Self.content self.now)) };

    /// How many elements are visible. Takes no memory.
    fn visible_len(&self) -> usize
        ensures { result ≡ length (visible (Self.content self.now)) };

    /// The visible element at an index of the text; `None` past its end. Takes no memory.
    fn element_at(&self, k: usize) -> Option<Id>
        ensures { result ≡ slice_get (visible (Self.content self.now)) k };

    /// The visible elements from index `lo` of the text to the one before `hi`, as far as there are
    /// any. `Memory` alone.
    fn elements(&self, alloc: Global, lo: usize, hi: usize) -> Result<Vec<Id>, OutOfMemory>
        ensures ok { IfOk result
            (λ ids. ids.items ≡ drop lo (take hi (visible (Self.content self.now)))) };

    /// How many visible elements are the element or stand before it; 0 for the root, and `None` for
    /// what is neither the root nor complete. Takes no memory.
    fn place_of(&self, id: Id) -> Option<usize>
        ensures { result ≡ place (Self.content self.now) id };

    /// How many inserted elements wait for an ancestor, and so are not in the order. `Memory`
    /// alone.
    fn waiting_count(&self) -> Result<usize, OutOfMemory>
        ensures ok { IfOk result (λ count. count ≡ length (waiting (Self.content self.now))) };

    /// The content as operations: the insertions by rising identifier, and then the deletions by
    /// rising identifier. `Memory` alone.
    fn ops(&self) -> Result<Vec<Op>, OutOfMemory>
        ensures ok { IfOk result (λ ops. ops.items ≡ operations (Self.content self.now)) };

    /// A store of its own with the same content and the same limit. `Memory` alone.
    fn copy(&self) -> Result<Self, OutOfMemory>
        ensures ok { IfOk result (λ s. (Self.content s ≡ Self.content self.now)
            × (Self.limit s ≡ Self.limit self.now)) };

    /// Takes all that another store holds, or nothing: the content becomes the join of both, the
    /// limit stays.
    ///
    /// Refusals, in this order: `Conflict` with the least identifier that names two insertions;
    /// `Full` where both together know more identifiers than the own limit allows; `Memory`. A
    /// refusal changes nothing. The first two take no memory.
    fn merge(&mut self, other: &Self) -> Result<(), Refusal>
        ensures exact { let answer = merge_answer (Self.limit self.old) (Self.content self.old)
            (Self.content other.now) in result ≢ Err Memory → result ≡ answer }
        ensures memory { let answer = merge_answer (Self.limit self.old) (Self.content self.old)
            (Self.content other.now) in result ≡ Err Memory → answer ≡ Ok tt }

        ensures joined { result ≡ Ok tt →
            Self.content self.new ≡ join (Self.content self.old) (Self.content other.now) }
        ensures same { result ≢ Ok tt → Self.content self.new ≡ Self.content self.old }
        ensures took { OnOk result (TakesAllOf
            (Self.content self.old) (Self.content other.now) (Self.content self.new)) }
        ensures limit { Self.limit self.new ≡ Self.limit self.old };

    /// The deletion of an inserted element takes no memory.
    ghost deletes_freely: { (s : Self) (id : Identifier) →
        finite_map.contains_key (Self.content s).inserted id ≡ true →
        ¬ (Self.may_grow s (Delete id)) };
}
