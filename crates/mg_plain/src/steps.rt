//! Steps over lines and over words.
ghost use Rattle.std.specs.Prelude.{◌≡◌, ◌≤◌, length, IfSome};
ghost use Rattle.mg_plain.specs.Steps as spec;

use crate::line_ends::line_step;
use crate::words::word_step;

/// Which way through a text.
#[derive(Clone, Copy)]
pub enum Direction {
    Forward,
    Backward,
}

/// What a step goes over.
#[derive(Clone, Copy)]
pub(crate) enum Piece {
    /// A line: from the begin of one to the begin of another.
    Line,
    /// A word: to its end going forward, to its begin going backward.
    Word,
}

/// One piece on or back, where there is one.
pub(crate) fn step(text: &[char], place: usize, piece: Piece, direction: Direction) -> Option<usize>
    requires { place ≤ length text.now }
    ensures step { result ≡ spec.step piece direction text.now place }
    ensures within { IfSome result (λ q. q ≤ length text.now) }
{
    match piece {
        Piece::Line => line_step(text, place, direction),
        Piece::Word => word_step(text, place, direction),
    }
}

/// So many pieces on or back, where there are so many.
pub(crate) fn steps(
    text: &[char],
    place: usize,
    count: u16,
    piece: Piece,
    direction: Direction,
) -> Option<usize>
    requires { place ≤ length text.now }
    ensures steps { result ≡ spec.steps (spec.step piece direction text.now) count place }
    ensures within { IfSome result (λ q. q ≤ length text.now) }
{
    let mut q = place;
    for _i in 0..count {
        match step(text, q, piece, direction) {
            Some(next) => q = next,
            None => return None,
        }
    }
    Some(q)
}

/// So many pieces on or back, or as many as there are.
pub(crate) fn steps_up_to(
    text: &[char],
    place: usize,
    count: usize,
    piece: Piece,
    direction: Direction,
) -> usize
    requires { place ≤ length text.now }
    ensures steps { result ≡ spec.steps_up_to (spec.step piece direction text.now) count place }
    ensures within { result ≤ length text.now }
{
    let mut q = place;
    for _i in 0..count {
        match step(text, q, piece, direction) {
            Some(next) => q = next,
            None => return q,
        }
    }
    q
}
