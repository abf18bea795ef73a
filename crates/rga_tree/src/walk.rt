//! The elements in order, and their characters: listed from the last to the first, and turned round.
ghost use Rattle.std.specs.Prelude.{◌≡◌, ◌++◌, ◌∷◌, [], reverse, if◌then◌else◌, is_some, string_bytes, encode_utf8_all, IfOk, IfErr, OnOk};
ghost use Rattle.std.specs.List.{cons_option};
ghost use Rattle.rga_ops.specs.Content.{IsSound};
ghost use Rattle.rga_ops.specs.Order.{order, text};
ghost use Rattle.rga_ops.specs.Places.{visible};
ghost use Rattle.rga_tree.specs.Nodes.{content_of_nodes, AreDistinctNodes};
ghost use Rattle.rga_tree.specs.Tree.{HasFamilies};

use crate::counting_back::{last_element, step_back};
use crate::nodes::Node;
use indexmap::IndexMap;
use rga_ops::{Id, OutOfMemory};
use std::alloc::Global;

/// The complete elements in order.
pub(crate) fn walked(alloc: Global, nodes: &IndexMap<Id, Node>) -> Result<Vec<Id>, OutOfMemory>
    requires apart { AreDistinctNodes nodes.now.entries }
    requires family { HasFamilies nodes.now.entries }
    requires sound { IsSound (content_of_nodes nodes.now.entries) }
    ensures ok { IfOk result (λ ids. ids.items ≡ order (content_of_nodes nodes.now.entries)) }
{
    let mut order = Vec::with_capacity(alloc, nodes.len())?;
    let mut near = 0;
    let mut at = last_element(nodes, &mut near);
    while let Some(step) = step_back(nodes, &mut near, at) {
        order.push(at)?;
        at = step.0;
    }
    order.reverse();
    Ok(order)
}

/// The visible elements in order, and their characters.
pub(crate) fn walked_visible(
    alloc: Global,
    nodes: &IndexMap<Id, Node>,
) -> Result<(Vec<Id>, Vec<char>), OutOfMemory>
    requires apart { AreDistinctNodes nodes.now.entries }
    requires family { HasFamilies nodes.now.entries }
    requires sound { IsSound (content_of_nodes nodes.now.entries) }
    ensures elements { IfOk result
        (λ p. p.0.items ≡ visible (content_of_nodes nodes.now.entries)) }
    ensures characters { IfOk result
        (λ p. p.1.items ≡ text (content_of_nodes nodes.now.entries)) }
{
    let mut ids = Vec::with_capacity(alloc, nodes.len())?;
    let mut chars = Vec::with_capacity(alloc, nodes.len())?;
    let mut near = 0;
    let mut at = last_element(nodes, &mut near);
    while let Some(step) = step_back(nodes, &mut near, at) {
        let (before, ch) = step;
        push_visible(&mut ids, &mut chars, at, ch)?;
        at = before;
    }
    ids.reverse();
    chars.reverse();
    Ok((ids, chars))
}

/// An element goes to the end if it has a character, which goes there too.
fn push_visible(
    ids: &mut Vec<Id>,
    chars: &mut Vec<char>,
    id: Id,
    ch: Option<char>,
) -> Result<(), OutOfMemory>
    ensures elements { OnOk result
        (ids.new.items ≡ ids.old.items ++ (if is_some ch then id ∷ [] else [])) }
    ensures characters { OnOk result (chars.new.items ≡ chars.old.items ++ cons_option ch []) }
{
    if let Some(ch) = ch {
        ids.push(id)?;
        chars.push(ch)?;
    }
    Ok(())
}

/// The characters in UTF-8.
pub(crate) fn encoded(alloc: Global, chars: &[char]) -> Result<String, OutOfMemory>
    ensures ok { IfOk result (λ text. string_bytes text ≡ encode_utf8_all chars.now) }
{
    let mut text = String::with_capacity(alloc, chars.len())?;
    for ch in chars {
        text.push(*ch)?;
    }
    Ok(text)
}
