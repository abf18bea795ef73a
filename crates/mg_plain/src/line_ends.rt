//! Lines of a text.
ghost use Rattle.std.specs.Prelude.{◌≡◌, ◌≤◌, ◌<◌, length, IfSome};
ghost use Rattle.std.specs.List.{slice_index};
ghost use Rattle.mg_plain.specs.Characters.{is_newline};
ghost use Rattle.mg_plain.specs.LineEnds as spec;

use crate::steps::Direction;

/// Whether a newline stands there.
pub(crate) fn has_newline(text: &[char], q: usize) -> bool
    requires { q < length text.now }
    ensures { result ≡ is_newline (slice_index text.now q) }
{
    text[q] == '\n'
}

/// The end of the line that the place is in.
pub fn line_end(text: &[char], point: usize) -> usize
    requires { point ≤ length text.now }
    ensures end { result ≡ spec.line_end text.now point }
    ensures behind { point ≤ result }
    ensures within { result ≤ length text.now }
{
    let mut q = point;
    while q < text.len() && !has_newline(text, q) {
        q += 1;
    }
    q
}

/// Whether a line begins there.
pub(crate) fn begins_line(text: &[char], q: usize) -> bool
    requires { q ≤ length text.now }
    ensures { result ≡ spec.begins_line text.now q }
{
    q == 0 || text[q - 1] == '\n'
}

/// The begin of the line that the place is in.
pub fn line_begin(text: &[char], point: usize) -> usize
    requires { point ≤ length text.now }
    ensures begin { result ≡ spec.line_begin text.now point }
    ensures within { result ≤ point }
{
    let mut q = point;
    while q > 0 && !begins_line(text, q) {
        q -= 1;
    }
    q
}

/// From the begin of a line to the begin of the next one or of the one before.
pub(crate) fn line_step(text: &[char], begin: usize, direction: Direction) -> Option<usize>
    requires { begin ≤ length text.now }
    ensures step { result ≡ spec.line_step direction text.now begin }
    ensures within { IfSome result (λ b. b ≤ length text.now) }
{
    match direction {
        Direction::Forward => {
            let end = line_end(text, begin);
            if end < text.len() {
                Some(end + 1)
            } else {
                None
            }
        }
        Direction::Backward if begin == 0 => None,
        Direction::Backward => Some(line_begin(text, begin - 1)),
    }
}
