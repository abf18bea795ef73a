//! Which keys are bound to which command.
ghost use Rattle.std.specs.Prelude.{◌≡◌, ◌∷◌, [], ◌++◌};
ghost use Rattle.mg_keys.specs.KeyTable as spec;

use crate::command::KeyCommand;

/// A key that waits for another.
#[derive(Clone, Copy, PartialEq, Eq)]
pub(crate) enum Prefix {
    /// There is none.
    Alone,
    Escape,
    ControlX,
}

/// A whole key sequence: the last byte, behind a prefix.
#[derive(Clone, Copy)]
pub(crate) struct Entry {
    prefix: Prefix,
    byte: u8,
    command: KeyCommand,
}

/// Entries, each by its prefix, its last byte and its command.
macro_rules! key_entries {
    ($($prefix:ident $byte:literal $command:ident,)*) => {
        [$(Entry {
            prefix: Prefix::$prefix,
            byte: $byte,
            command: KeyCommand::$command,
        },)*]
    };
}

/// By the table of keys in mg(1); behind ESC an upper-case letter counts as the lower-case one.
static TABLE: [Entry; 56] = key_entries![
    Alone 0 SetMarkCommand,
    Alone 1 BeginningOfLine,
    Alone 5 EndOfLine,
    Alone 2 BackwardChar,
    Alone 6 ForwardChar,
    Alone 4 DeleteChar,
    Alone 127 DeleteBackwardChar,
    Alone 10 NewlineAndIndent,
    Alone 13 Newline,
    Alone 15 OpenLine,
    Alone 11 KillLine,
    Alone 23 KillRegion,
    Alone 25 Yank,
    Alone 12 Recenter,
    Alone 14 NextLine,
    Alone 16 PreviousLine,
    Alone 19 IsearchForward,
    Alone 18 IsearchBackward,
    Alone 20 TransposeChars,
    Alone 22 ScrollUp,
    Alone 31 Undo,
    Escape b'<' BeginningOfBuffer,
    Escape b'>' EndOfBuffer,
    Escape b'%' QueryReplace,
    Escape b'b' BackwardWord,
    Escape b'B' BackwardWord,
    Escape b'f' ForwardWord,
    Escape b'F' ForwardWord,
    Escape b'd' KillWord,
    Escape b'D' KillWord,
    Escape b'c' CapitalizeWord,
    Escape b'C' CapitalizeWord,
    Escape b'l' DowncaseWord,
    Escape b'L' DowncaseWord,
    Escape b'u' UpcaseWord,
    Escape b'U' UpcaseWord,
    Escape b'q' FillParagraph,
    Escape b'Q' FillParagraph,
    Escape b'w' CopyRegionAsKill,
    Escape b'W' CopyRegionAsKill,
    Escape b'v' ScrollDown,
    Escape b'V' ScrollDown,
    Escape b'x' ExecuteExtendedCommand,
    Escape b'X' ExecuteExtendedCommand,
    ControlX 24 ExchangePointAndMark,
    ControlX 3 SaveBuffersKillEmacs,
    ControlX 6 FindFile,
    ControlX 19 SaveBuffer,
    ControlX b'u' Undo,
    ControlX b'h' MarkWholeBuffer,
    ControlX b'b' SwitchToBuffer,
    ControlX b'k' KillBuffer,
    ControlX b'0' DeleteWindow,
    ControlX b'1' DeleteOtherWindows,
    ControlX b'2' SplitWindowVertically,
    ControlX b'o' OtherWindow,
];

fn has_keys(entry: &Entry, prefix: Prefix, byte: u8) -> bool
    ensures { result ≡ spec.same_keys
        (spec.keys_of entry.now.prefix ++ entry.now.byte ∷ []) (spec.keys_of prefix ++ byte ∷ []) }
{
    entry.prefix == prefix && entry.byte == byte
}

fn first_entry(entries: &[Entry], prefix: Prefix, byte: u8) -> Option<KeyCommand>
    ensures { result ≡ spec.first_entry entries.now (spec.keys_of prefix ++ byte ∷ []) }
{
    for entry in entries {
        if has_keys(entry, prefix, byte) {
            return Some(entry.command);
        }
    }
    None
}

/// The command of a whole key sequence.
pub(crate) fn bound(prefix: Prefix, byte: u8) -> Option<KeyCommand>
    ensures { result ≡ spec.bound (spec.keys_of prefix ++ byte ∷ []) }
{
    first_entry(&TABLE, prefix, byte)
}
