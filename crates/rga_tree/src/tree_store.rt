//! A store as a tree: a node for each identifier, and under it its children.
ghost use Rattle.std.specs.Prelude.{◌≡◌, ◌≢◌, ◌⊎◌, [], Ok, Err, OnOk, OnErr, true, false};
ghost use Rattle.std.specs.FinMap as finite_map;
ghost use Rattle.rga_ops.specs.Prelude.{Memory};
ghost use Rattle.rga_ops.specs.Content.{join, single};
ghost use Rattle.rga_ops.specs.Answer.{answer, facts};
ghost use Rattle.rga_ops.specs.Order.{waiting};
ghost use Rattle.rga_ops.specs.Found.{facts_of};

mod removal;
mod whole_list;

use crate::counting_back::{count_up_to, element_at, last_element, reaches_root};
use crate::merging::{count_unknown, knows, least_conflict};
use crate::nodes::{Node, add_child, element_of, ensure_node, found_at, mark, set_element};
use crate::operations::{list_deletions, list_insertions, tell_each};
use crate::walk::{encoded, walked, walked_visible};
use indexmap::IndexMap;
use rga_ops::{Found, Id, Op, OutOfMemory, Refusal, Taken, answer_to};
use rga_store::counts::{count_unless, raise};
use rga_store::{Holder, Listener, Lookup, MAX_LIMIT, Taker, Teller, TextStore, answer_to_list};
use std::alloc::Global;
use std::marker::Model;

/// The timestamped insertion tree of Attiya and others 2016: a node for each identifier that is
/// inserted, deleted or named as a parent, the root among these, and under each node its children.
/// So what comes early, be it a deletion or a child, waits in the node of what it waits for. A new
/// insertion costs a search among its siblings, any other operation none.
#[derive(Drop)]
pub struct TreeStore {
    alloc: Global,
    nodes: IndexMap<Id, Node>,
    clock: u64,
    /// How many identifiers are inserted.
    inserted: usize,
    /// How many identifiers are inserted, deleted or both.
    known: usize,
    limit: usize,
}

impl Model for TreeStore {
    ghost use Rattle.rga_store.specs.Kept.{Kept, kept_code};

    ghost Value = { Kept };

    ghost coded = { kept_code };

    ghost use Rattle.rga_tree.specs.Nodes.{content_of_nodes};
    ghost use Rattle.rga_tree.specs.Tree.{IsTree};

    ghost view = { λ a. record { content = content_of_nodes a.nodes.entries; limit = a.limit } };

    ghost invariant = { λ a. IsTree a.nodes.entries a.clock a.inserted a.known a.limit };
}

impl Taker for TreeStore {
    ghost use Rattle.rga_store.specs.Growth.{NeedsRoom};

    ghost content = { λ s. s.content };

    ghost limit = { λ s. s.limit };

    ghost may_grow = { λ s op. NeedsRoom s.content op };

    ghost follows = { λ s ops t. Unit {0} };

    ghost follows_nothing = { λ s. tt };

    ghost follows_on = { λ s t u xs ys a b. tt };

    fn apply(&mut self, op: Op) -> Result<Taken, Refusal> {
        let answer = answer_to(op, self.find(op.id()));
        if answer != Ok(Taken::New) {
            return answer;
        }
        match &op {
            Op::Insert { id, parent, ch } => self.insert(*id, *parent, *ch),
            Op::Delete { id } => self.delete(*id),
        }
    }

    fn apply_all(&mut self, ops: &[Op]) -> Result<(), Refusal> {
        let alloc = self.alloc;
        let Err(refused) = self.take_whole(ops) else {
            return Ok(());
        };
        // Which refusal comes first depends on the whole list, so it is looked for only now.
        answer_to_list(alloc, self, ops)?;
        Err(refused)
    }
}

impl Holder for TreeStore {
    ghost held = { λ s. s.content };

    fn has(&self, op: &Op) -> bool {
        match op {
            Op::Insert { id, parent, ch } => self.get(*id) == Some((*parent, *ch)),
            Op::Delete { id } => self.is_deleted(*id),
        }
    }
}

impl Lookup for TreeStore {
    ghost holds = { λ s. s.content };

    ghost may_know = { λ s. s.limit };

    fn element_of(&self, id: Id) -> Option<(Id, char)> {
        self.get(id)
    }

    fn knows_of(&self, id: Id) -> bool {
        knows(&self.nodes, id)
    }

    fn room(&self) -> usize {
        self.limit - self.known
    }
}

impl TreeStore {
    /// What is known of an identifier, by one search.
    fn find(&self, id: Id) -> Found
        ensures { facts_of result ≡ facts self.now.limit self.now.content id }
    {
        let known = self.known;
        let limit = self.limit;
        match self.nodes.get(&id) {
            Some(node) => Found {
                element: node.element,
                deleted: node.deleted,
                known,
                limit,
            },
            None => Found {
                element: None,
                deleted: false,
                known,
                limit,
            },
        }
    }

    /// Whether the root has a node and each other node its element. So each parent but the root is
    /// inserted, and nothing waits.
    fn is_rooted(&self) -> bool
        ensures { result ≡ true → waiting self.now.content ≡ [] }
    {
        if self.nodes.len() != self.inserted + 1 {
            return false;
        }
        self.nodes.contains_key(&Id::ROOT)
    }

    /// Takes an insertion by one search for its identifier, and a new one stands among its siblings.
    /// Memory may be wanting before any other answer is found. Until the element is there, a refusal
    /// leaves no more than nodes that mean nothing.
    fn insert(&mut self, id: Id, parent: Id, ch: char) -> Result<Taken, Refusal>
        ensures exact { result ≢ Err Memory →
            result ≡ answer self.old.limit self.old.content (Op.Insert id parent ch) }
        ensures new { result ≡ Ok Taken.New →
            self.new.content ≡ join self.old.content (single (Op.Insert id parent ch)) }
        ensures same { result ≢ Ok Taken.New → self.new.content ≡ self.old.content }
        ensures limit { self.new.limit ≡ self.old.limit }
    {
        let above = ensure_node(self.alloc, &mut self.nodes, parent)?;
        let index = ensure_node(self.alloc, &mut self.nodes, id)?;
        let found = found_at(&self.nodes, index, id, self.known, self.limit);
        let answer = answer_to(Op::Insert { id, parent, ch }, found);
        if answer != Ok(Taken::New) {
            return answer;
        }
        add_child(self.alloc, &mut self.nodes, above, parent, id)?;
        let deleted = set_element(&mut self.nodes, index, id, parent, ch);
        self.inserted += 1;
        count_unless(deleted, &mut self.known);
        raise(&mut self.clock, id.counter());
        Ok(Taken::New)
    }

    /// Marks an identifier as deleted, which takes memory only where it has no node.
    fn delete(&mut self, id: Id) -> Result<Taken, Refusal>
        requires { answer self.old.limit self.old.content (Op.Delete id) ≡ Ok Taken.New }
        ensures ok { OnOk result
            (self.new.content ≡ join self.old.content (single (Op.Delete id))) }
        ensures same { OnErr result (self.new.content ≡ self.old.content) }
        ensures answer { (result ≡ Ok Taken.New) ⊎ (result ≡ Err Memory) }
        ensures growth { result ≡ Err Memory →
            finite_map.contains_key self.old.content.inserted id ≡ false }
        ensures limit { self.new.limit ≡ self.old.limit }
    {
        let index = ensure_node(self.alloc, &mut self.nodes, id)?;
        let inserted = mark(&mut self.nodes, index, id);
        count_unless(inserted, &mut self.known);
        raise(&mut self.clock, id.counter());
        Ok(Taken::New)
    }
}

impl TextStore for TreeStore {
    ghost use Rattle.std.proofs.Common.{true≢false, sym, ◌∙◌};

    ghost deletes_freely = { λ s id inserted grows. true≢false (sym inserted ∙ grows) };

    fn new(alloc: Global, limit: usize) -> Result<TreeStore, Refusal> {
        if limit < 1 || limit > MAX_LIMIT {
            return Err(Refusal::Range);
        }
        Ok(TreeStore {
            alloc,
            nodes: IndexMap::new(alloc),
            clock: 0,
            inserted: 0,
            known: 0,
            limit,
        })
    }

    fn get(&self, id: Id) -> Option<(Id, char)> {
        element_of(&self.nodes, id)
    }

    fn is_deleted(&self, id: Id) -> bool {
        self.find(id).deleted
    }

    fn known(&self) -> usize {
        self.known
    }

    fn contains(&self, op: &Op) -> bool {
        self.has(op)
    }

    fn clock(&self) -> u64 {
        self.clock
    }

    fn limit(&self) -> usize {
        self.limit
    }

    fn order(&self) -> Result<Vec<Id>, OutOfMemory> {
        walked(self.alloc, &self.nodes)
    }

    fn text(&self, alloc: Global) -> Result<Vec<char>, OutOfMemory> {
        let (_ids, chars) = walked_visible(alloc, &self.nodes)?;
        Ok(chars)
    }

    fn text_string(&self, alloc: Global) -> Result<String, OutOfMemory> {
        let chars = self.text(alloc)?;
        encoded(alloc, &chars)
    }

    fn visible(&self, alloc: Global) -> Result<(Vec<Id>, Vec<char>), OutOfMemory> {
        walked_visible(alloc, &self.nodes)
    }

    fn visible_len(&self) -> usize {
        count_up_to(&self.nodes, last_element(&self.nodes, &mut 0))
    }

    fn element_at(&self, k: usize) -> Option<Id> {
        element_at(&self.nodes, k)
    }

    fn elements(&self, alloc: Global, lo: usize, hi: usize) -> Result<Vec<Id>, OutOfMemory> {
        let (mut ids, _chars) = walked_visible(alloc, &self.nodes)?;
        ids.truncate(hi);
        ids.drain(..lo.min(ids.len()));
        Ok(ids)
    }

    fn place_of(&self, id: Id) -> Option<usize> {
        if !reaches_root(&self.nodes, id) {
            return None;
        }
        Some(count_up_to(&self.nodes, id))
    }

    fn waiting_count(&self) -> Result<usize, OutOfMemory> {
        if self.is_rooted() {
            return Ok(0);
        }
        let order = walked(self.alloc, &self.nodes)?;
        Ok(self.inserted - order.as_slice().len())
    }

    fn ops(&self) -> Result<Vec<Op>, OutOfMemory> {
        let mut ops = Vec::new(self.alloc);
        list_insertions(self.alloc, &mut ops, &self.nodes)?;
        list_deletions(self.alloc, &mut ops, &self.nodes)?;
        Ok(ops)
    }

    fn copy(&self) -> Result<TreeStore, OutOfMemory> {
        let mut copy = match TreeStore::new(self.alloc, self.limit) {
            Ok(copy) => copy,
            Err(refused) => return Err(refused.memory()),
        };
        match copy.merge(self) {
            Ok(()) => Ok(copy),
            Err(refused) => Err(refused.memory()),
        }
    }

    fn merge(&mut self, other: &TreeStore) -> Result<(), Refusal> {
        if let Some(id) = least_conflict(&self.nodes, &other.nodes) {
            return Err(Refusal::Conflict(id));
        }
        if count_unknown(&self.nodes, &other.nodes) > self.limit - self.known {
            return Err(Refusal::Full);
        }
        let ops = other.ops()?;
        self.take_whole(&ops)
    }
}

impl Teller for TreeStore {
    fn tell_insertions<L: Listener>(&self, listener: &mut L) -> Result<(), OutOfMemory> {
        let mut told = Vec::new(self.alloc);
        list_insertions(self.alloc, &mut told, &self.nodes)?;
        tell_each(&told, listener)
    }

    fn tell_deletions<L: Listener>(&self, listener: &mut L) -> Result<(), OutOfMemory> {
        let mut told = Vec::new(self.alloc);
        list_deletions(self.alloc, &mut told, &self.nodes)?;
        tell_each(&told, listener)
    }
}
