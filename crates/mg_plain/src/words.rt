//! Words, as commands step over them.
ghost use Rattle.std.specs.Prelude.{◌≡◌, ◌≤◌, ◌<◌, length, IfSome};
ghost use Rattle.mg_plain.specs.Words as spec;

use crate::characters::is_word_character;
use crate::steps::Direction;

/// Whether a word character stands there.
pub(crate) fn has_word_character(text: &[char], q: usize) -> bool
    ensures { result ≡ spec.has_word_character text.now q }
{
    q < text.len() && is_word_character(text[q])
}

fn ends_word(text: &[char], q: usize) -> bool
    requires { 0 < q }
    ensures { result ≡ spec.ends_word text.now q }
{
    has_word_character(text, q - 1) && !has_word_character(text, q)
}

/// The end of the first word that ends behind the place, else the length.
pub(crate) fn word_end(text: &[char], q: usize) -> usize
    requires { q < length text.now }
    ensures end { result ≡ spec.word_end text.now q }
    ensures behind { q < result }
    ensures within { result ≤ length text.now }
{
    let mut e = q + 1;
    while e < text.len() && !ends_word(text, e) {
        e += 1;
    }
    e
}

fn begins_word(text: &[char], q: usize) -> bool
    ensures { result ≡ spec.begins_word text.now q }
{
    if !has_word_character(text, q) {
        return false;
    }
    q == 0 || !has_word_character(text, q - 1)
}

/// The begin of the last word that begins before the place, else 0.
fn word_begin(text: &[char], q: usize) -> usize
    requires { q ≤ length text.now }
    ensures begin { result ≡ spec.word_begin text.now q }
    ensures within { result ≤ q }
{
    let mut b = q.saturating_sub(1);
    while b > 0 && !begins_word(text, b) {
        b -= 1;
    }
    b
}

/// One word on or back.
pub(crate) fn word_step(text: &[char], q: usize, direction: Direction) -> Option<usize>
    requires { q ≤ length text.now }
    ensures step { result ≡ spec.word_step direction text.now q }
    ensures within { IfSome result (λ b. b ≤ length text.now) }
{
    match direction {
        Direction::Forward if q == text.len() => None,
        Direction::Forward => Some(word_end(text, q)),
        Direction::Backward if q == 0 => None,
        Direction::Backward => Some(word_begin(text, q)),
    }
}
