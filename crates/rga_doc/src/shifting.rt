//! Characters moved within a list.
ghost use Rattle.std.specs.Prelude.{◌≡◌, ◌≤◌, ◌+◌, ◌-◌, min, max, take, drop, length, vec_capacity};
ghost use Rattle.rga_doc.specs.Characters.{turned};

/// What goes by so many places at most is turned with what it goes over, which is done in one go;
/// by more it is copied, one character after the other.
const MOST_TURNED: usize = 1024;

/// Moves what stands from one place on to another one: the characters between are given up, or
/// blanks and old characters stand there. There is room.
pub(crate) fn move_tail(characters: &mut Vec<char>, from: usize, to: usize)
    requires from { from ≤ length characters.old.items }
    requires room { to + (length characters.old.items - from) ≤ vec_capacity characters.old }
    ensures front { take (min from to) characters.new.items
        ≡ take (min from to) characters.old.items }
    ensures tail { drop to characters.new.items ≡ drop from characters.old.items }
    ensures len { length characters.new.items + from ≡ length characters.old.items + to }
    ensures capacity { vec_capacity characters.old ≤ vec_capacity characters.new }
{
    let count = characters.len();
    let end = to + (count - from);
    if to <= from {
        shift_back(characters, from, count, to);
        characters.truncate(end);
        return;
    }
    let _ = characters.resize(end, ' ');
    shift_on(characters, from, count, to);
}

/// Moves the characters `start` to `end - 1` to another place. Those behind both places stay.
pub(crate) fn shift(characters: &mut Vec<char>, start: usize, end: usize, to: usize)
    requires ordered { start ≤ end }
    requires within { end ≤ length characters.old.items }
    requires room { to + (end - start) ≤ length characters.old.items }
    ensures moved { take (end - start) (drop to characters.new.items)
        ≡ drop start (take end characters.old.items) }
    ensures behind { drop (max end (to + (end - start))) characters.new.items
        ≡ drop (max end (to + (end - start))) characters.old.items }
    ensures len { length characters.new.items ≡ length characters.old.items }
    ensures capacity { vec_capacity characters.old ≤ vec_capacity characters.new }
{
    if to <= start {
        shift_back(characters, start, end, to);
    } else {
        shift_on(characters, start, end, to);
    }
}

/// Moves the characters `start` to `end - 1` to a place before them.
fn shift_back(characters: &mut Vec<char>, start: usize, end: usize, to: usize)
    requires back { to ≤ start }
    requires ordered { start ≤ end }
    requires within { end ≤ length characters.old.items }
    ensures moved { take (end - start) (drop to characters.new.items)
        ≡ drop start (take end characters.old.items) }
    ensures before { take to characters.new.items ≡ take to characters.old.items }
    ensures behind { drop end characters.new.items ≡ drop end characters.old.items }
    ensures len { length characters.new.items ≡ length characters.old.items }
    ensures capacity { vec_capacity characters.old ≤ vec_capacity characters.new }
{
    if start - to <= MOST_TURNED {
        turn(characters, to, end, start - to);
    } else {
        characters.copy_within(start..end, to);
    }
}

/// Moves the characters `start` to `end - 1` to a place behind their first.
fn shift_on(characters: &mut Vec<char>, start: usize, end: usize, to: usize)
    requires on { start ≤ to }
    requires ordered { start ≤ end }
    requires room { to + (end - start) ≤ length characters.old.items }
    ensures moved { take (end - start) (drop to characters.new.items)
        ≡ drop start (take end characters.old.items) }
    ensures before { take start characters.new.items ≡ take start characters.old.items }
    ensures behind { drop (to + (end - start)) characters.new.items
        ≡ drop (to + (end - start)) characters.old.items }
    ensures len { length characters.new.items ≡ length characters.old.items }
    ensures capacity { vec_capacity characters.old ≤ vec_capacity characters.new }
{
    if to - start <= MOST_TURNED {
        turn(characters, start, to + (end - start), end - start);
    } else {
        characters.copy_within(start..end, to);
    }
}

/// Between two places the first characters, so many of them, come to stand behind the others.
fn turn(characters: &mut Vec<char>, from: usize, end: usize, count: usize)
    requires ordered { from + count ≤ end }
    requires within { end ≤ length characters.old.items }
    ensures items { characters.new.items ≡ turned characters.old.items from end count }
    ensures len { length characters.new.items ≡ length characters.old.items }
    ensures capacity { vec_capacity characters.old ≤ vec_capacity characters.new }
{
    turn_part(characters.as_mut_slice(), from, end, count);
}

/// The same of a slice.
fn turn_part(characters: &mut [char], from: usize, end: usize, count: usize)
    requires ordered { from + count ≤ end }
    requires within { end ≤ length characters.old }
    ensures items { characters.new ≡ turned characters.old from end count }
    ensures len { length characters.new ≡ length characters.old }
{
    characters[from..end].rotate_left(count);
}
