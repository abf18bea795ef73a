//! Key sequences of mode Plain.
ghost use Rattle.std.specs.Prelude.{◌≡◌, ◌≢◌, ◌<◌, ◌≤◌, ◌∷◌, [], ◌++◌, MatchOption};
ghost use Rattle.mg_keys.specs.Advance.{ReadsOn, PlainAdvances, by_itself};
ghost use Rattle.mg_keys.specs.Argument.{value as value_of};
ghost use Rattle.mg_keys.specs.Begun.{plain_rest};
ghost use Rattle.mg_keys.specs.KeyTable.{keys_of};
ghost use Rattle.mg_keys.specs.Meaning as spec;
ghost use Rattle.mg_keys.specs.Utf8.{is, neither};

use crate::argument::{Argument, value, with_byte};
use crate::bytes::{CANCEL, CONTROL_X, ESCAPE, QUOTE, TAB};
use crate::sequence::{Advance, Sequence};
use crate::step::Step;
use crate::table::{Prefix, bound};
use crate::utf8::{Read, begin, read_on};
use mg_plain::Command;

/// The key behind a prefix.
fn prefixed(argument: Argument, prefix: Prefix, byte: u8) -> Advance
    requires { prefix ≢ Prefix.Alone }
    ensures { PlainAdvances
        (λ rest. spec.meaning_of_keys (value_of argument) (keys_of prefix ++ rest)) byte result }
{
    if byte == CANCEL {
        return Advance::Whole(Step::Cancel);
    }
    match bound(prefix, byte) {
        Some(command) => Advance::Whole(command.step(value(argument))),
        None => Advance::Nothing,
    }
}

/// A byte that is none of ASCII.
fn high(argument: Argument, byte: u8) -> Advance
    requires { 128 ≤ byte }
    ensures { PlainAdvances (spec.plain_meaning argument) byte result }
{
    match begin(byte) {
        Read::Character(c) => Advance::Whole(Step::Run(Command::Insert(c), value(argument))),
        Read::More(begun) => Advance::On(argument, Sequence::Character(begun)),
        Read::Nothing => Advance::Nothing,
    }
}

/// A character of ASCII that a key inserts by itself.
fn ascii(byte: u8) -> Option<char>
    requires { byte < 128 }
    ensures { MatchOption result
        (by_itself (byte ∷ []) ≡ neither) (λ c. by_itself (byte ∷ []) ≡ is c) }
{
    if byte == TAB || (byte >= b' ' && byte <= b'~') {
        return Some(char::from(byte));
    }
    None
}

/// The first byte of a sequence, or one more of its argument part.
fn start(argument: Argument, byte: u8) -> Advance
    ensures { PlainAdvances (spec.plain_meaning argument) byte result }
{
    if byte >= 128 {
        return high(argument, byte);
    }
    if let Some(more) = with_byte(argument, byte) {
        return Advance::On(more, Sequence::Start);
    }
    if byte == ESCAPE {
        return Advance::On(argument, Sequence::Escape);
    }
    if byte == CONTROL_X {
        return Advance::On(argument, Sequence::ControlX);
    }
    if byte == QUOTE {
        return Advance::On(argument, Sequence::Quote);
    }
    if byte == CANCEL {
        return Advance::Whole(Step::Cancel);
    }
    if let Some(command) = bound(Prefix::Alone, byte) {
        return Advance::Whole(command.step(value(argument)));
    }
    match ascii(byte) {
        Some(c) => Advance::Whole(Step::Run(Command::Insert(c), value(argument))),
        None => Advance::Nothing,
    }
}

/// The byte behind a C-q.
fn quoted(byte: u8) -> Read
    ensures { ReadsOn spec.quoted byte result }
{
    if byte < 128 {
        return Read::Character(char::from(byte));
    }
    begin(byte)
}

/// What a byte makes of a sequence and its argument.
pub(crate) fn plain_advance(argument: Argument, sequence: Sequence, byte: u8) -> Advance
    ensures { PlainAdvances (plain_rest argument sequence) byte result }
{
    let read = match sequence {
        Sequence::Start => return start(argument, byte),
        Sequence::Escape => return prefixed(argument, Prefix::Escape, byte),
        Sequence::ControlX => return prefixed(argument, Prefix::ControlX, byte),
        Sequence::Quote => quoted(byte),
        Sequence::Character(begun) => read_on(begun, byte),
    };
    match read {
        Read::Character(c) => Advance::Whole(Step::Run(Command::Insert(c), value(argument))),
        Read::More(begun) => Advance::On(argument, Sequence::Character(begun)),
        Read::Nothing => Advance::Nothing,
    }
}
