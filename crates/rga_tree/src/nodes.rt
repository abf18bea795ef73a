//! A node for each identifier that is inserted, deleted, or named as a parent.
ghost use Rattle.std.specs.Prelude.{◌≡◌, true, false, None, IfOk, IfErr, IfSome, OnOk, OnErr};
ghost use Rattle.std.specs.FinMap as finite_map;
ghost use Rattle.std.specs.FinSet as finite_set;
ghost use Rattle.std.specs.Map.{lookup};
ghost use Rattle.std.specs.Option.{option_copied, option_map};
ghost use Rattle.rga_ops.specs.Prelude.{is_id, join, single};
ghost use Rattle.rga_ops.specs.Found.{facts_of};
ghost use Rattle.rga_tree.specs.Children.{has_child};
ghost use Rattle.rga_tree.specs.Nodes.{content_of_nodes, children_of, KeepsChildren, AddsChildUnder, RemovesChildUnder, AreRising, AreDistinctNodes, StandsAt, KeepsIndexes};
ghost use Rattle.rga_store.specs.Without.{without_insertion, without_deletion};

use crate::child_list::ChildList;
use indexmap::IndexMap;
use rga_ops::{Found, Id, Op, OutOfMemory};
use std::alloc::Global;

/// What is kept of an identifier. A node may come before its element: for a deletion that came
/// early, or for the children that wait. One with neither an element nor a mark means nothing.
#[derive(Drop)]
pub(crate) struct Node {
    /// The parent and the character, once the identifier is inserted.
    pub(crate) element: Option<(Id, char)>,
    pub(crate) deleted: bool,
    pub(crate) children: ChildList,
}

/// Sees to it that an identifier has a node, and says at which index. A new one means nothing, and
/// one that was there is put back: so there is one search, and none for the node that was made
/// last, as an element's parent mostly was. Only a new one takes memory.
pub(crate) fn ensure_node(
    alloc: Global,
    nodes: &mut IndexMap<Id, Node>,
    id: Id,
) -> Result<usize, OutOfMemory>
    requires { AreDistinctNodes nodes.old.entries }
    ensures index { IfOk result (λ index. StandsAt nodes.new.entries index id) }
    ensures others { KeepsIndexes nodes.old.entries nodes.new.entries }
    ensures content { content_of_nodes nodes.new.entries ≡ content_of_nodes nodes.old.entries }
    ensures children { KeepsChildren nodes.old.entries nodes.new.entries }
    ensures apart { AreDistinctNodes nodes.new.entries }
    ensures absent { OnErr result (lookup (is_id id) nodes.old.entries ≡ None) }
{
    if let Some(index) = last_index(nodes, id) {
        return Ok(index);
    }
    let node = Node {
        element: None,
        deleted: false,
        children: ChildList::new(alloc),
    };
    match nodes.insert_full(id, node) {
        Ok((index, None)) => Ok(index),
        Ok((index, Some(node))) => {
            nodes[index] = node;
            Ok(index)
        }
        Err(refused) => Err(OutOfMemory::from(refused)),
    }
}

/// The index of the node that was made last, if it is the identifier's.
fn last_index(nodes: &IndexMap<Id, Node>, id: Id) -> Option<usize>
    ensures { IfSome result (λ index. StandsAt nodes.now.entries index id) }
{
    let index = nodes.len().saturating_sub(1);
    match nodes.get_index(index) {
        Some((last, _)) if *last == id => Some(index),
        _ => None,
    }
}

/// A child that is not there goes in under its parent.
pub(crate) fn add_child(
    alloc: Global,
    nodes: &mut IndexMap<Id, Node>,
    index: usize,
    parent: Id,
    id: Id,
) -> Result<(), OutOfMemory>
    requires apart { AreDistinctNodes nodes.old.entries }
    requires index { StandsAt nodes.old.entries index parent }
    requires rising { AreRising nodes.old.entries }
    requires absent { has_child (children_of nodes.old.entries parent) id ≡ false }
    ensures added { OnOk result (AddsChildUnder nodes.old.entries nodes.new.entries parent id) }
    ensures rising { AreRising nodes.new.entries }
    ensures others { KeepsIndexes nodes.old.entries nodes.new.entries }
    ensures content { content_of_nodes nodes.new.entries ≡ content_of_nodes nodes.old.entries }
    ensures apart { AreDistinctNodes nodes.new.entries }
    ensures same { OnErr result (KeepsChildren nodes.old.entries nodes.new.entries) }
{
    nodes[index].children.put(alloc, id)
}

/// What is known of an identifier that has a node, and of the room that is left.
pub(crate) fn found_at(
    nodes: &IndexMap<Id, Node>,
    index: usize,
    id: Id,
    known: usize,
    limit: usize,
) -> Found
    requires apart { AreDistinctNodes nodes.now.entries }
    requires index { StandsAt nodes.now.entries index id }
    ensures found { (facts_of result).found
        ≡ finite_map.get (content_of_nodes nodes.now.entries).inserted id }
    ensures deleted { result.deleted
        ≡ finite_set.contains (content_of_nodes nodes.now.entries).deleted id }
    ensures known { result.known ≡ known }
    ensures limit { result.limit ≡ limit }
{
    let node = &nodes[index];
    Found {
        element: node.element,
        deleted: node.deleted,
        known,
        limit,
    }
}

/// A node gets its element. Says whether its identifier is deleted already.
pub(crate) fn set_element(
    nodes: &mut IndexMap<Id, Node>,
    index: usize,
    id: Id,
    parent: Id,
    ch: char,
) -> bool
    requires apart { AreDistinctNodes nodes.old.entries }
    requires index { StandsAt nodes.old.entries index id }
    requires absent { finite_map.get (content_of_nodes nodes.old.entries).inserted id ≡ None }
    ensures deleted { let content = content_of_nodes nodes.old.entries in
        result ≡ finite_set.contains content.deleted id }
    ensures content { content_of_nodes nodes.new.entries
        ≡ join (content_of_nodes nodes.old.entries) (single (Op.Insert id parent ch)) }
    ensures children { KeepsChildren nodes.old.entries nodes.new.entries }
    ensures apart { AreDistinctNodes nodes.new.entries }
{
    let node = &mut nodes[index];
    node.element = Some((parent, ch));
    node.deleted
}

/// A node gets its mark. Says whether its identifier is inserted already.
pub(crate) fn mark(nodes: &mut IndexMap<Id, Node>, index: usize, id: Id) -> bool
    requires apart { AreDistinctNodes nodes.old.entries }
    requires index { StandsAt nodes.old.entries index id }
    ensures inserted { let content = content_of_nodes nodes.old.entries in
        result ≡ finite_map.contains_key content.inserted id }
    ensures content { content_of_nodes nodes.new.entries
        ≡ join (content_of_nodes nodes.old.entries) (single (Op.Delete id)) }
    ensures children { KeepsChildren nodes.old.entries nodes.new.entries }
    ensures apart { AreDistinctNodes nodes.new.entries }
{
    let node = &mut nodes[index];
    node.deleted = true;
    node.element.is_some()
}

/// The element of a node goes. Says whether its identifier is deleted.
pub(crate) fn clear_element(nodes: &mut IndexMap<Id, Node>, id: Id) -> bool
    requires { finite_map.contains_key (content_of_nodes nodes.old.entries).inserted id ≡ true }
    ensures deleted { let content = content_of_nodes nodes.old.entries in
        result ≡ finite_set.contains content.deleted id }
    ensures content { content_of_nodes nodes.new.entries
        ≡ without_insertion id (content_of_nodes nodes.old.entries) }
    ensures children { KeepsChildren nodes.old.entries nodes.new.entries }
    ensures apart { AreDistinctNodes nodes.new.entries }
{
    match nodes.get_mut(&id) {
        Some(node) => {
            node.element = None;
            node.deleted
        }
        None => false,
    }
}

/// The mark of a node goes. Says whether its identifier is inserted.
pub(crate) fn clear_mark(nodes: &mut IndexMap<Id, Node>, id: Id) -> bool
    requires { finite_set.contains (content_of_nodes nodes.old.entries).deleted id ≡ true }
    ensures inserted { let content = content_of_nodes nodes.old.entries in
        result ≡ finite_map.contains_key content.inserted id }
    ensures content { content_of_nodes nodes.new.entries
        ≡ without_deletion id (content_of_nodes nodes.old.entries) }
    ensures children { KeepsChildren nodes.old.entries nodes.new.entries }
    ensures apart { AreDistinctNodes nodes.new.entries }
{
    match nodes.get_mut(&id) {
        Some(node) => {
            node.deleted = false;
            node.element.is_some()
        }
        None => false,
    }
}

/// A child leaves its parent's list.
pub(crate) fn remove_child(nodes: &mut IndexMap<Id, Node>, parent: Id, id: Id)
    requires { AreRising nodes.old.entries }
    ensures removed { RemovesChildUnder nodes.old.entries nodes.new.entries parent id }
    ensures rising { AreRising nodes.new.entries }
    ensures content { content_of_nodes nodes.new.entries ≡ content_of_nodes nodes.old.entries }
    ensures apart { AreDistinctNodes nodes.new.entries }
{
    match nodes.get_mut(&parent) {
        Some(node) => node.children.remove(id),
        None => (),
    }
}

/// The parent and the character under an identifier, if it is inserted.
pub(crate) fn element_of(nodes: &IndexMap<Id, Node>, id: Id) -> Option<(Id, char)>
    requires { AreDistinctNodes nodes.now.entries }
    ensures { let content = content_of_nodes nodes.now.entries in
        result ≡ option_map (λ x. (x.parent, x.ch)) (finite_map.get content.inserted id) }
{
    nodes.get(&id)?.element
}

/// The node of an identifier. It is looked for first at the index `near`, whichever that is, which
/// then becomes the index where it is.
pub(crate) fn find_node<'a>(
    nodes: &'a IndexMap<Id, Node>,
    near: &mut usize,
    id: Id,
) -> Option<&'a Node>
    ensures { option_copied result ≡ lookup (is_id id) nodes.now.entries }
{
    if let Some((found, node)) = nodes.get_index(*near) {
        if *found == id {
            return Some(node);
        }
    }
    let (index, _, node) = nodes.get_full(&id)?;
    *near = index;
    Some(node)
}
