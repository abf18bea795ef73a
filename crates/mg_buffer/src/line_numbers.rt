//! The line of a place: counted, or moved to another place.
ghost use Rattle.std.specs.Prelude.{◌≡◌, ◌≤◌, ℕ, List, take, length, count_by};
ghost use Rattle.mg_buffer.specs.Kept.{IsLineOfPlace};
ghost use Rattle.mg_buffer.specs.declared.line_numbers.TheConstants.{BLOCK};
ghost use Rattle.mg_buffer.specs.LineNumbers as spec;
ghost use Rattle.mg_plain.specs.Characters.{is_newline};

use rga_ops::Splice;

/// How many characters are looked at together: so many newlines are counted in 32 bits, several at
/// a time.
const BLOCK: usize = 512;

/// How many newlines a block has.
fn newlines_of_block(block: &[char]) -> u32
    requires { length block.now ≤ BLOCK }
    ensures exact { result ≡ count_by is_newline block.now }
    ensures bound { result ≤ length block.now }
{
    let mut count: u32 = 0;
    for c in block {
        if *c == '\n' {
            count += 1;
        }
    }
    count
}

/// How many newlines characters have.
fn newlines(text: &[char]) -> usize
    ensures { result ≡ count_by is_newline text.now }
{
    let mut count = 0;
    let mut rest = text;
    while rest.len() > BLOCK {
        let (block, behind) = rest.split_at(BLOCK);
        count += newlines_of_block(block) as usize;
        rest = behind;
    }
    count + newlines_of_block(rest) as usize
}

/// The line in which a place stands, from 0: how many newlines stand before it. They are counted.
/// Takes no memory.
pub fn line_of(text: &[char], place: usize) -> usize
    requires { place ≤ length text.now }
    ensures { result ≡ spec.line_of text.now place }
{
    newlines(&text[..place])
}

/// The line of a place of a text, from 0.
#[derive(Clone, Copy)]
pub(crate) struct KnownLine {
    pub(crate) place: usize,
    pub(crate) number: usize,
}

impl KnownLine {
    /// That of the front.
    pub(crate) const FIRST: KnownLine = KnownLine {
        place: 0,
        number: 0,
    };

    /// That of another place, so that no more is looked at than what stands between both.
    #[tactic(auto, using(crate::proofs::LineLaws::lines_between))]
    pub(crate) fn moved(self, text: &[char], place: usize) -> KnownLine
        requires line { IsLineOfPlace text.now self }
        requires place { place ≤ length text.now }
        ensures line { IsLineOfPlace text.now result }
        ensures place { result.place ≡ place }
    {
        if place <= self.place {
            let number = self.number - newlines(&text[place..self.place]);
            return KnownLine { place, number };
        }
        let number = self.number + newlines(&text[self.place..place]);
        KnownLine { place, number }
    }

    /// The same where so many characters at the front stayed, and that of the front where its place
    /// is behind them.
    #[tactic(auto, using(crate::proofs::LineLaws::line_in_front))]
    pub(crate) fn kept_in(self, front: usize) -> KnownLine
        ensures { (old new : List ℕ) → take front new ≡ take front old → IsLineOfPlace old self →
            IsLineOfPlace new result }
    {
        if self.place <= front {
            return self;
        }
        KnownLine::FIRST
    }
}

/// The least of a place and of those at which splices begin. What stands before it stays.
pub(crate) fn least_begin(place: usize, splices: &[Splice]) -> usize
    ensures { result ≡ spec.least_begin place splices.now }
{
    let mut least = place;
    for splice in splices {
        least = least.min(splice.lo);
    }
    least
}
