//! Arguments, as C-u and digits give them.
ghost use Rattle.std.specs.Prelude.{◌≡◌, ◌<◌};
ghost use Rattle.mg_keys.specs.Argument as spec;

use crate::bytes::UNIVERSAL_ARGUMENT;

/// The greatest argument.
pub const MAX_ARGUMENT: u16 = 9999;

/// An argument, by how it was given.
#[derive(Clone, Copy, PartialEq, Eq)]
pub(crate) enum Argument {
    /// Not at all: it is 1.
    Absent,
    /// By C-u, which makes it 4, or four times what it was.
    Multiplied(u16),
    /// By digits behind a C-u.
    Typed(u16),
}

fn with_digit(argument: Argument, digit: u8) -> Option<Argument>
    requires { digit < 10 }
    ensures { result ≡ spec.with_digit argument digit }
{
    match argument {
        Argument::Absent => None,
        Argument::Multiplied(_) => Some(Argument::Typed(u16::from(digit))),
        Argument::Typed(n) => {
            let all = (u32::from(n) * 10 + u32::from(digit)).min(u32::from(MAX_ARGUMENT));
            Some(Argument::Typed(all as u16))
        }
    }
}

fn four_times(argument: Argument) -> Argument
    ensures { result ≡ spec.four_times argument }
{
    match argument {
        Argument::Absent => Argument::Multiplied(4),
        Argument::Multiplied(n) | Argument::Typed(n) => {
            Argument::Multiplied((u32::from(n) * 4).min(u32::from(MAX_ARGUMENT)) as u16)
        }
    }
}

/// The argument with one byte more, if the byte goes on with it.
pub(crate) fn with_byte(argument: Argument, byte: u8) -> Option<Argument>
    ensures { result ≡ spec.with_byte argument byte }
{
    match byte {
        UNIVERSAL_ARGUMENT => Some(four_times(argument)),
        b'0'..=b'9' => with_digit(argument, byte - b'0'),
        _ => None,
    }
}

pub(crate) fn value(argument: Argument) -> u16
    ensures { result ≡ spec.value argument }
{
    match argument {
        Argument::Absent => 1,
        Argument::Multiplied(n) | Argument::Typed(n) => n,
    }
}
