//! Characters that a command or a prompt keeps.
ghost use Rattle.std.specs.Prelude.{◌≡◌, [], ◌∷◌, ◌++◌, IfOk, OnOk};

use std::alloc::{AllocError, Global};
use std::marker::Model;

/// A list of characters: a pattern, what is put in its place, an answer.
#[derive(Drop)]
pub struct Chars {
    items: Vec<char>,
}

impl Model for Chars {
    ghost use Rattle.std.specs.Prelude.{ℕ, List};

    ghost Value = { List ℕ };

    ghost view = { λ c. c.items.items };
}

impl Chars {
    /// No characters. Takes no memory.
    pub fn new(alloc: Global) -> Chars
        ensures { result ≡ [] }
    {
        Chars {
            items: Vec::new(alloc),
        }
    }

    /// A copy of a slice.
    pub fn from_slice(alloc: Global, slice: &[char]) -> Result<Chars, AllocError>
        ensures { IfOk result (λ chars. chars ≡ slice.now) }
    {
        Ok(Chars {
            items: Vec::from_slice(alloc, slice)?,
        })
    }

    /// The characters, lent.
    pub fn as_slice(&self) -> &[char]
        ensures { result.now ≡ self.now }
    {
        self.items.as_slice()
    }

    /// Adds a character behind the others.
    pub fn push(&mut self, ch: char) -> Result<(), AllocError>
        ensures { OnOk result (self.new ≡ self.old ++ ch ∷ []) }
    {
        self.items.push(ch)?;
        Ok(())
    }
}

impl From<Vec<char>> for Chars {
    ghost from_gives = { λ items chars. chars ≡ items.items };

    fn from(items: Vec<char>) -> Chars {
        Chars { items }
    }
}
