//! Where a pattern stands in a text. Nothing here takes memory.
ghost use Rattle.std.specs.Prelude.{◌≡◌, ◌≤◌, ◌+◌, length, IfSome};
ghost use Rattle.mg_plain.specs.Matches as spec;

use crate::characters::lower;
use crate::steps::Direction;

/// Whether it is the same character, ASCII letters without regard to case.
pub fn alike(a: char, b: char) -> bool
    ensures { result ≡ spec.alike a b }
{
    lower(a) == lower(b)
}

fn begins_with(pattern: &[char], text: &[char]) -> bool
    ensures { result ≡ spec.begins_with pattern.now text.now }
{
    let mut k = 0;
    while k < pattern.len() {
        if k >= text.len() {
            return false;
        }
        if !alike(pattern[k], text[k]) {
            return false;
        }
        k += 1;
    }
    true
}

/// Whether the pattern stands there.
pub(crate) fn stands_at(pattern: &[char], text: &[char], i: usize) -> bool
    requires { i ≤ length text.now }
    ensures { result ≡ spec.stands_at pattern.now text.now i }
{
    begins_with(pattern, &text[i..])
}

/// The least index from the start on at which the pattern stands.
pub(crate) fn first_match(pattern: &[char], text: &[char], start: usize) -> Option<usize>
    requires { start ≤ length text.now }
    ensures first { result ≡ spec.first_match pattern.now text.now start }
    ensures behind { IfSome result (λ i. start ≤ i) }
    ensures within { IfSome result (λ i. i + length pattern.now ≤ length text.now) }
{
    let mut i = start;
    while !stands_at(pattern, text, i) {
        if i == text.len() {
            return None;
        }
        i += 1;
    }
    Some(i)
}

/// The greatest index up to the start at which the pattern stands.
fn last_match(pattern: &[char], text: &[char], start: usize) -> Option<usize>
    requires { start ≤ length text.now }
    ensures last { result ≡ spec.last_match pattern.now text.now start }
    ensures within { IfSome result (λ i. i + length pattern.now ≤ length text.now) }
{
    let mut i = start;
    while !stands_at(pattern, text, i) {
        if i == 0 {
            return None;
        }
        i -= 1;
    }
    Some(i)
}

/// Where a search finds the pattern: forward the least index from the start on at which it stands,
/// backward the greatest up to the start. ASCII case makes no difference; an empty pattern stands
/// at the start; nothing is found from a start behind the text. Takes no memory.
pub fn find(direction: Direction, text: &[char], pattern: &[char], start: usize) -> Option<usize>
    ensures exact { result ≡ spec.found_match direction pattern.now text.now start }
    ensures within { IfSome result (λ i. i + length pattern.now ≤ length text.now) }
{
    if start > text.len() {
        return None;
    }
    match direction {
        Direction::Forward => first_match(pattern, text, start),
        Direction::Backward => last_match(pattern, text, start),
    }
}

/// How many matches there are from the start on, each found from the end of the one before. An
/// empty pattern has none. Takes no memory.
pub fn count_matches(text: &[char], pattern: &[char], start: usize) -> usize
    ensures { result ≡ spec.match_count pattern.now text.now start }
{
    if pattern.is_empty() || start > text.len() {
        return 0;
    }
    let mut count: usize = 0;
    let mut end = start;
    while let Some(i) = first_match(pattern, text, end) {
        end = i + pattern.len();
        count += 1;
    }
    count
}
