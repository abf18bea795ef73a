//! What stands round a step.
use std::borrow::CowSlice;
use std::marker::Model;

/// What a step is decided from.
#[derive(Drop)]
pub struct Scene<'a> {
    /// The text of the current buffer, lent or its own.
    pub text: CowSlice<'a, char>,
    /// Its point.
    pub point: usize,
    /// How many text rows the current window has.
    pub rows: usize,
    /// Whether any buffer is changed.
    pub changed: bool,
}

impl<'a> Model for Scene<'a> {
    ghost use Rattle.std.specs.Cow.{cow_slice_items};
    ghost use Rattle.mg_minibuffer.specs.Scenes as spec;

    ghost Value = { spec.Scene };

    ghost view = { λ s. record {
      text = cow_slice_items s.text;
      point = s.point;
      rows = s.rows;
      changed = s.changed;
    } };
}
