//! What a command sees.
use std::marker::Model;

/// Of which kind the command before was.
#[derive(Clone, Copy, PartialEq, Eq)]
pub enum Kind {
    /// Nothing that the next command minds.
    Plain,
    /// A kill: the next kill goes behind it.
    Killing,
    /// A motion over lines: the next one keeps its goal.
    Vertical,
}

/// A text with its point and mark, which are places of it, and the kill buffer. Places count
/// characters, from 0.
#[derive(Drop)]
pub struct View<'a> {
    pub text: &'a [char],
    pub point: usize,
    pub mark: Option<usize>,
    pub kill: &'a [char],
    /// The column, in characters, that motions over lines aim at.
    pub goal: usize,
    /// Of which kind the command before was.
    pub last: Kind,
}

impl<'a> Model for View<'a> {
    ghost use Rattle.std.specs.Prelude.{◌≤◌, length};
    ghost use Rattle.std.specs.Option.{ForSome};
    ghost use Rattle.mg_plain.specs.Situation.{Situation};

    ghost Value = { Situation };

    ghost view = { λ v. record {
      text = v.text.now;
      point = v.point;
      mark = v.mark;
      kill = v.kill.now;
      goal = v.goal;
      last = v.last;
    } };

    ghost invariant = { λ v.
        (v.point ≤ length v.text.now) × ForSome v.mark (λ m. m ≤ length v.text.now) };
}
