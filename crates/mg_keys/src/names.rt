//! Commands by their names, as M-x takes them.
ghost use Rattle.std.specs.Prelude.{◌≡◌};
ghost use Rattle.mg_keys.specs.KeyTable.{same_keys};
ghost use Rattle.mg_keys.specs.Names as spec;

use crate::command::KeyCommand;

/// A command that M-x takes.
#[derive(Clone, Copy)]
pub enum NamedCommand {
    /// One that keys are bound to, too.
    Key(KeyCommand),
    /// Sends what the buffer holds to another replica, and takes what that one sends.
    ReplicaExchange,
    /// Waits for another replica, and takes and sends.
    ReplicaServe,
}

struct Entry {
    name: &'static [u8],
    command: NamedCommand,
}

/// Entries of the commands that keys are bound to, and behind these of the others.
macro_rules! name_entries {
    ($($name:literal $key:ident,)*; $($other:literal $command:ident,)*) => {
        [
            $(Entry {
                name: $name,
                command: NamedCommand::Key(KeyCommand::$key),
            },)*
            $(Entry {
                name: $other,
                command: NamedCommand::$command,
            },)*
        ]
    };
}

static NAMES: [Entry; 46] = name_entries![
    b"set-mark-command" SetMarkCommand,
    b"beginning-of-line" BeginningOfLine,
    b"end-of-line" EndOfLine,
    b"backward-char" BackwardChar,
    b"forward-char" ForwardChar,
    b"delete-char" DeleteChar,
    b"delete-backward-char" DeleteBackwardChar,
    b"newline-and-indent" NewlineAndIndent,
    b"newline" Newline,
    b"open-line" OpenLine,
    b"kill-line" KillLine,
    b"kill-region" KillRegion,
    b"yank" Yank,
    b"recenter" Recenter,
    b"next-line" NextLine,
    b"previous-line" PreviousLine,
    b"isearch-forward" IsearchForward,
    b"isearch-backward" IsearchBackward,
    b"transpose-chars" TransposeChars,
    b"scroll-up" ScrollUp,
    b"scroll-down" ScrollDown,
    b"undo" Undo,
    b"beginning-of-buffer" BeginningOfBuffer,
    b"end-of-buffer" EndOfBuffer,
    b"backward-word" BackwardWord,
    b"forward-word" ForwardWord,
    b"kill-word" KillWord,
    b"capitalize-word" CapitalizeWord,
    b"downcase-word" DowncaseWord,
    b"upcase-word" UpcaseWord,
    b"fill-paragraph" FillParagraph,
    b"copy-region-as-kill" CopyRegionAsKill,
    b"query-replace" QueryReplace,
    b"save-buffers-kill-emacs" SaveBuffersKillEmacs,
    b"find-file" FindFile,
    b"save-buffer" SaveBuffer,
    b"exchange-point-and-mark" ExchangePointAndMark,
    b"switch-to-buffer" SwitchToBuffer,
    b"kill-buffer" KillBuffer,
    b"mark-whole-buffer" MarkWholeBuffer,
    b"delete-window" DeleteWindow,
    b"delete-other-windows" DeleteOtherWindows,
    b"split-window-vertically" SplitWindowVertically,
    b"other-window" OtherWindow,
    ;
    b"replica-exchange" ReplicaExchange,
    b"replica-serve" ReplicaServe,
];

/// Whether a text is just that name.
fn is_name(name: &[u8], text: &[char]) -> bool
    ensures { result ≡ same_keys name.now text.now }
{
    if name.len() != text.len() {
        return false;
    }
    let mut k = 0;
    while k < name.len() {
        if u32::from(name[k]) != u32::from(text[k]) {
            return false;
        }
        k += 1;
    }
    true
}

fn first_named(entries: &[Entry], text: &[char]) -> Option<NamedCommand>
    ensures { result ≡ spec.first_named entries.now text.now }
{
    for entry in entries {
        if is_name(entry.name, text) {
            return Some(entry.command);
        }
    }
    None
}

/// The command of that name: every one that keys are bound to, and the two of replicas; but not
/// `quoted-insert`, `universal-argument`, `execute-extended-command` and `keyboard-quit`, which M-x
/// does not take. Takes no memory.
pub fn named(text: &[char]) -> Option<NamedCommand>
    ensures { result ≡ spec.command_named text.now }
{
    first_named(&NAMES, text)
}
