//! The kill buffer, to which a row of kills adds. Only what is added is moved.
ghost use Rattle.std.specs.Prelude.{◌≡◌, ◌≤◌, ◌+◌, ◌&&◌, true, IfErr, OnOk};
ghost use Rattle.std.specs.Option.{option_map, option_map_or};
ghost use Rattle.std.specs.Vec.{vec_len, vec_capacity};
ghost use Rattle.mg_plain.specs.Kills.{is_kill, kill_after};

use mg_plain::Kind;
use rga_ops::OutOfMemory;

/// Makes room for what a command puts in, where that goes behind what is there. `Memory` alone; the
/// kill buffer stays.
pub(crate) fn make_room(
    kill: &mut Vec<char>,
    last: Kind,
    kind: Kind,
    chars: &Option<Vec<char>>,
) -> Result<(), OutOfMemory>
    ensures items { kill.new.items ≡ kill.old.items }
    ensures room { OnOk result ((is_kill last && is_kill kind) ≡ true →
        vec_len kill.new + option_map_or vec_len chars.now 0 ≤ vec_capacity kill.new) }
{
    if let Some(chars) = chars
        && goes_behind(last, kind)
    {
        kill.reserve(chars.as_slice().len())?;
    }
    Ok(())
}

/// Puts in what a command kills or copies, if it does. There is room.
pub(crate) fn put_in(kill: &mut Vec<char>, last: Kind, kind: Kind, chars: Option<Vec<char>>)
    requires { (is_kill last && is_kill kind) ≡ true →
        vec_len kill.old + option_map_or vec_len chars 0 ≤ vec_capacity kill.old }
    ensures { kill.new.items
        ≡ kill_after last kill.old.items kind (option_map (λ c. c.items) chars) }
{
    let Some(chars) = chars else {
        return;
    };
    if goes_behind(last, kind) {
        let _ = kill.extend_from_slice(&chars);
        return;
    }
    *kill = chars;
}

/// Whether what a command puts in goes behind what is there: a kill's behind a kill's.
fn goes_behind(last: Kind, kind: Kind) -> bool
    ensures { result ≡ (is_kill last && is_kill kind) }
{
    last == Kind::Killing && kind == Kind::Killing
}
