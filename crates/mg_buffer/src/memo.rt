//! What the editor keeps between commands.
ghost use Rattle.std.specs.Prelude.{◌≡◌, []};
ghost use Rattle.mg_plain.specs.declared.view.Kind.TheVariants.{Plain};

use mg_plain::Kind;
use std::alloc::Global;
use std::marker::Model;

/// The kill buffer, of which kind the last command was, and the goal of motions over lines. An
/// editor has one for all its buffers.
#[derive(Drop)]
pub struct Memo {
    pub kill: Vec<char>,
    pub kind: Kind,
    /// The column, in characters, that motions over lines aim at.
    pub goal: usize,
}

impl Model for Memo {
    ghost use Rattle.mg_buffer.specs.Sight.{Notes};

    ghost Value = { Notes };

    ghost view = { λ m. record { kill = m.kill.items; kind = m.kind; goal = m.goal } };
}

impl Memo {
    /// What an editor begins with: an empty kill buffer, kind Plain, goal 0. Takes no memory.
    pub fn new(alloc: Global) -> Memo
        ensures { result ≡ record { kill = []; kind = Plain; goal = 0 } }
    {
        Memo {
            kill: Vec::new(alloc),
            kind: Kind::Plain,
            goal: 0,
        }
    }
}
