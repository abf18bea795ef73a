//! Characters that change places, and letters that change case.
ghost use Rattle.std.specs.Prelude.{◌≡◌, ◌≤◌, ◌<◌, ◌-◌, length, Ok, IfOk};
ghost use Rattle.std.specs.List.{slice_index};
ghost use Rattle.mg_plain.specs.Answer.{IsEffectAnswer};
ghost use Rattle.mg_plain.specs.Cases as spec;

use crate::characters::{lower, upper};
use crate::edit::{edit, edit_once};
use crate::outcome::{Notice, Plan};
use crate::splice;
use crate::view::View;
use crate::words::{has_word_character, word_end};
use rga_ops::Splice;
use std::alloc::{AllocError, Global};

/// The characters on both sides of point change places.
pub(crate) fn transpose_chars(alloc: Global, view: &View<'_>) -> Result<Plan, Notice>
    ensures { IsEffectAnswer result (spec.transpose_chars view.now) }
{
    if view.point == 0 {
        return Err(Notice::BeginningOfBuffer);
    }
    if view.point == view.text.len() {
        return Err(Notice::EndOfBuffer);
    }
    let before = view.text[view.point - 1];
    let behind = view.text[view.point];
    edit_once(
        alloc,
        view,
        view.point - 1,
        view.point + 1,
        &[behind, before],
    )
}

/// What becomes of the letters of a word.
#[derive(Clone, Copy)]
pub(crate) enum Casing {
    /// All upper case.
    Upper,
    /// All lower case.
    Lower,
    /// The first word character upper case, all others lower case.
    Capital,
}

/// The first word character from a place on.
fn first_word_character(text: &[char], q: usize) -> usize
    requires { q ≤ length text.now }
    ensures { result ≡ spec.first_word_character text.now q }
{
    let mut i = q;
    while i < text.len() && !has_word_character(text, i) {
        i += 1;
    }
    i
}

/// What becomes of the character at a place, where the first word character stands at `first`.
fn recased(casing: Casing, first: usize, i: usize, c: char) -> char
    ensures { result ≡ spec.recased_char casing first i c }
{
    match casing {
        Casing::Upper => upper(c),
        Casing::Lower => lower(c),
        Casing::Capital => { if i == first { upper(c) } else { lower(c) } }
    }
}

fn char_at(text: &[char], i: usize) -> char
    requires { i < length text.now }
    ensures { result ≡ slice_index text.now i }
{
    text[i]
}

/// A splice for each of the characters between two places that changes, falling.
fn character_splices(
    alloc: Global,
    text: &[char],
    lo: usize,
    hi: usize,
    casing: Casing,
    first: usize,
) -> Result<Vec<Splice>, AllocError>
    requires order { lo ≤ hi }
    requires within { hi ≤ length text.now }
    ensures { IfOk result (λ v. v.items
        ≡ spec.character_splices (spec.recased_char casing first) text.now lo (hi - lo)) }
{
    let mut splices = Vec::new(alloc);
    let mut i = hi;
    while i > lo {
        i -= 1;
        let c = char_at(text, i);
        let new = recased(casing, first, i, c);
        if new != c {
            let one = splice(alloc, i, i + 1, &[new])?;
            splices.push(one)?;
        }
    }
    Ok(splices)
}

/// The characters from point up to a place, where point goes.
fn recase_up_to(alloc: Global, view: &View<'_>, casing: Casing, end: usize) -> Result<Plan, Notice>
    requires order { view.now.point ≤ end }
    requires within { end ≤ length view.now.text }
    ensures { IsEffectAnswer result (Ok (spec.recasing_up_to casing view.now end)) }
{
    let first = first_word_character(view.text, view.point);
    let splices = character_splices(alloc, view.text, view.point, end, casing, first)?;
    let plan = edit(view, splices)?;
    Ok(Plan { point: end, ..plan })
}

pub(crate) fn recase_word(alloc: Global, view: &View<'_>, casing: Casing) -> Result<Plan, Notice>
    ensures { IsEffectAnswer result (spec.recasing casing view.now) }
{
    if view.point == view.text.len() {
        return Err(Notice::EndOfBuffer);
    }
    let end = word_end(view.text, view.point);
    recase_up_to(alloc, view, casing, end)
}
