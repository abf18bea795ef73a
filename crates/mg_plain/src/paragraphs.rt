//! Paragraphs: greatest runs of lines that hold something besides spaces and tabs.
ghost use Rattle.std.specs.Prelude.{◌≡◌, ◌≤◌, ◌<◌, ◌-◌, length, not, true, IfSome};
ghost use Rattle.mg_plain.specs.Paragraphs as spec;
ghost use Rattle.mg_plain.specs.Scans.{least, least_from, greatest_up_to};

use crate::line_ends::{begins_line, has_newline, line_begin, line_end};

/// Whether neither space nor tab nor newline stands there.
fn is_nonblank(text: &[char], q: usize) -> bool
    ensures { result ≡ spec.is_nonblank text.now q }
{
    q < text.len() && !(text[q] == ' ' || text[q] == '\t' || text[q] == '\n')
}

/// The first such place from one place on and before another.
pub(crate) fn first_nonblank(text: &[char], q: usize, hi: usize) -> Option<usize>
    requires order { q ≤ hi }
    requires within { hi ≤ length text.now }
    ensures first { result ≡ least (spec.is_nonblank text.now) q (hi - q) }
    ensures nonblank { IfSome result (λ b. spec.is_nonblank text.now b ≡ true) }
    ensures behind { IfSome result (λ b. q ≤ b) }
    ensures before { IfSome result (λ b. b < hi) }
{
    let mut b = q;
    while b < hi {
        if is_nonblank(text, b) {
            return Some(b);
        }
        b += 1;
    }
    None
}

/// Where the run of such places that begins there ends.
pub(crate) fn run_end(text: &[char], b: usize, hi: usize) -> usize
    requires before { b < hi }
    requires within { hi ≤ length text.now }
    requires nonblank { spec.is_nonblank text.now b ≡ true }
    ensures end { result ≡ least_from (λ k. not (spec.is_nonblank text.now k)) b hi }
    ensures behind { b < result }
    ensures within { result ≤ hi }
{
    let mut e = b + 1;
    while e < hi && is_nonblank(text, e) {
        e += 1;
    }
    e
}

/// Whether the rest of the line holds something besides spaces and tabs.
pub(crate) fn has_nonblank(text: &[char], q: usize) -> bool
    requires { q ≤ length text.now }
    ensures { result ≡ spec.has_nonblank text.now q }
{
    first_nonblank(text, q, line_end(text, q)).is_some()
}

fn begins_paragraph(text: &[char], q: usize) -> bool
    requires { q ≤ length text.now }
    ensures { result ≡ spec.begins_paragraph text.now q }
{
    if !begins_line(text, q) {
        return false;
    }
    if q == 0 {
        return true;
    }
    !has_nonblank(text, line_begin(text, q - 1))
}

fn ends_paragraph(text: &[char], q: usize) -> bool
    requires { q < length text.now }
    ensures { result ≡ spec.ends_paragraph text.now q }
{
    has_newline(text, q) && !has_nonblank(text, q + 1)
}

/// The begin of the paragraph that the place is in.
pub(crate) fn paragraph_begin(text: &[char], point: usize) -> usize
    requires { point ≤ length text.now }
    ensures begin { result ≡ greatest_up_to (spec.begins_paragraph text.now) point }
    ensures within { result ≤ point }
{
    let mut q = point;
    while q > 0 && !begins_paragraph(text, q) {
        q -= 1;
    }
    q
}

/// The end of the paragraph that the place is in.
pub(crate) fn paragraph_end(text: &[char], point: usize) -> usize
    requires { point ≤ length text.now }
    ensures end { result ≡ least_from (spec.ends_paragraph text.now) point (length text.now) }
    ensures behind { point ≤ result }
    ensures within { result ≤ length text.now }
{
    let mut q = point;
    while q < text.len() && !ends_paragraph(text, q) {
        q += 1;
    }
    q
}
