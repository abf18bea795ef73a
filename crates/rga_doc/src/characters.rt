//! The characters of a text in one slice, with room at both ends: of what an edit moves the shorter
//! side is moved.
ghost use Rattle.std.specs.Prelude.{◌≡◌, ◌≤◌, ◌+◌, ◌++◌, length, drop, vec_capacity, IfErr, OnOk};
ghost use Rattle.rga_ops.specs.Splice.{spliced};

use crate::shifting::{move_tail, shift};
use rga_ops::OutOfMemory;
use std::marker::Model;

/// Characters in order, behind places that are unused.
#[derive(Drop)]
pub struct Characters {
    /// The unused places, and the characters.
    places: Vec<char>,
    /// How many places are unused before the characters.
    start: usize,
}

impl Model for Characters {
    ghost use Rattle.std.specs.Prelude.{◌-◌, ◌≤◌, drop, length, vec_capacity};
    ghost use Rattle.rga_doc.specs.Characters.{CharacterList};

    ghost Value = { CharacterList };

    ghost view = { λ l. record {
      items = drop l.start l.places.items;
      room = vec_capacity l.places - length l.places.items;
    } };

    ghost invariant = { λ l. l.start ≤ length l.places.items };
}

impl Characters {
    /// The characters of a list.
    pub fn of(characters: Vec<char>) -> Characters
        ensures { result.items ≡ characters.items }
    {
        Characters {
            places: characters,
            start: 0,
        }
    }

    /// The characters, lent.
    pub fn as_slice(&self) -> &[char]
        ensures { result.now ≡ self.now.items }
    {
        let places = self.places.as_slice();
        &places[self.start..]
    }

    /// How many characters there are.
    pub fn len(&self) -> usize
        ensures { result ≡ length self.now.items }
    {
        self.places.as_slice().len() - self.start
    }

    /// Adds characters at the end. `Memory` alone.
    pub fn extend(&mut self, characters: &[char]) -> Result<(), OutOfMemory>
        ensures items { OnOk result (self.new.items ≡ self.old.items ++ characters.now) }
    {
        self.places.extend_from_slice(characters)?;
        Ok(())
    }

    /// Makes room for so many more characters; for an eighth more than there are where that is more,
    /// so that typing seldom moves them all. `Memory` alone; the characters stay.
    pub fn make_room(&mut self, more: usize) -> Result<(), OutOfMemory>
        ensures items { self.new.items ≡ self.old.items }
        ensures room { OnOk result (more ≤ self.new.room) }
    {
        let used = self.places.as_slice().len();
        if self.places.capacity() - used < more {
            let added = more.max(self.len() / 8);
            self.places.reserve_exact(added)?;
        }
        self.open_front(more);
        Ok(())
    }

    /// Where no places are unused before the characters, these have half of the room that is not
    /// asked for, if that is some: so what is put in near the front moves little.
    fn open_front(&mut self, more: usize)
        requires { more ≤ self.old.room }
        ensures items { self.new.items ≡ self.old.items }
        ensures room { more ≤ self.new.room }
    {
        let used = self.places.as_slice().len();
        let spare = (self.places.capacity() - used - more) / 2;
        if self.start > 0 || spare <= used / 256 {
            return;
        }
        move_tail(&mut self.places, 0, spare);
        self.start = spare;
    }

    /// Gives up what is unused, at both ends, where it is above a fifth of the characters.
    pub fn give_back(&mut self)
        ensures { self.new.items ≡ self.old.items }
    {
        let count = self.len();
        if self.places.capacity() - count <= count / 5 {
            return;
        }
        move_tail(&mut self.places, self.start, 0);
        self.start = 0;
        self.places.shrink_to_fit();
    }

    /// Replaces the characters `lo` to `hi - 1` by others. Where these are as many, nothing is
    /// moved; else what stands before them is, where it is less than what stands behind them and
    /// the unused places suffice. There is room.
    pub fn replace(&mut self, lo: usize, hi: usize, put: &[char])
        requires ordered { lo ≤ hi }
        requires in_list { hi ≤ length self.old.items }
        requires room { length put.now ≤ self.old.room }
        ensures items { self.new.items ≡ spliced self.old.items lo hi put.now }
        ensures room { self.old.room ≤ self.new.room + length put.now }
    {
        let start = self.start;
        if put.len() == hi - lo {
            overwrite(&mut self.places, start + lo, put);
        } else if lo < self.len() - hi && lo + put.len() <= start + hi {
            self.start = replace_and_move_front(&mut self.places, start, lo, hi, put);
        } else {
            replace_and_move_tail(&mut self.places, start + lo, start + hi, put);
        }
    }
}

/// Replaces characters that are counted from a start, and moves what stands between it and them.
/// Where the characters start then.
fn replace_and_move_front(
    places: &mut Vec<char>,
    start: usize,
    lo: usize,
    hi: usize,
    put: &[char],
) -> usize
    requires ordered { lo ≤ hi }
    requires in_list { start + hi ≤ length places.old.items }
    requires room { lo + length put.now ≤ start + hi }
    ensures items { drop result places.new.items
        ≡ spliced (drop start places.old.items) lo hi put.now }
    ensures start { result + (lo + length put.now) ≡ start + hi }
    ensures len { length places.new.items ≡ length places.old.items }
    ensures capacity { vec_capacity places.old ≤ vec_capacity places.new }
{
    let to = start + hi - (lo + put.len());
    shift(places, start, start + lo, to);
    overwrite(places, to + lo, put);
    to
}

/// Replaces characters, and moves what stands behind them. There is room.
fn replace_and_move_tail(places: &mut Vec<char>, lo: usize, hi: usize, put: &[char])
    requires ordered { lo ≤ hi }
    requires in_list { hi ≤ length places.old.items }
    requires room { length places.old.items + length put.now ≤ vec_capacity places.old }
    ensures items { places.new.items ≡ spliced places.old.items lo hi put.now }
    ensures capacity { vec_capacity places.old ≤ vec_capacity places.new }
{
    move_tail(places, hi, lo + put.len());
    overwrite(places, lo, put);
}

/// Replaces as many characters as are put, from a place on.
fn overwrite(places: &mut Vec<char>, lo: usize, put: &[char])
    requires { lo + length put.now ≤ length places.old.items }
    ensures items { places.new.items
        ≡ spliced places.old.items lo (lo + length put.now) put.now }
    ensures len { length places.new.items ≡ length places.old.items }
    ensures capacity { vec_capacity places.old ≤ vec_capacity places.new }
{
    places[lo..lo + put.len()].copy_from_slice(put);
}
