//! What a frame is made of: the windows with their texts, and the echo line.
use std::borrow::CowSlice;
use std::marker::Model;

/// A window: the text that it shows from a line on, lent or its own, and what its mode line says. Point is a place
/// of the text, with its line beside it, so that a frame reads no more than it shows; there are 1
/// to `MAX_ROWS` text rows.
#[derive(Drop)]
pub struct Pane<'a> {
    pub text: CowSlice<'a, char>,
    /// How many characters stand before point.
    pub point: usize,
    /// The line of point, from 0: how many newlines stand before it.
    pub line: usize,
    /// The line in the topmost row, from 0.
    pub first: usize,
    /// How many text rows the window has.
    pub height: usize,
    /// The name of what is edited.
    pub name: String,
    /// Whether that has changes that are not saved.
    pub changed: bool,
    /// How many insertions wait for the one that they stand behind.
    pub waiting: usize,
}

impl<'a> Model for Pane<'a> {
    ghost use Rattle.std.specs.Prelude.{◌≡◌, ◌≤◌, length, string_bytes};
    ghost use Rattle.std.specs.Cow.{cow_slice_items};
    ghost use Rattle.mg_screen.specs.Screen as spec;
    ghost use Rattle.mg_screen.specs.Lines.{line_index};
    ghost use Rattle.mg_screen.specs.Size.{most_rows};

    ghost Value = { spec.Pane };

    ghost view = { λ p. record {
      text = cow_slice_items p.text;
      point = p.point;
      first = p.first;
      height = p.height;
      name = string_bytes p.name;
      changed = p.changed;
      waiting = p.waiting;
    } };

    ghost invariant = { λ p.
        (p.point ≤ length (cow_slice_items p.text)) × (1 ≤ p.height) × (p.height ≤ most_rows)
        × (p.line ≡ line_index (cow_slice_items p.text) p.point) };
}

/// The windows from the top on, and what the echo line says.
#[derive(Drop)]
pub struct Screen<'a> {
    pub panes: Vec<Pane<'a>>,
    pub echo: String,
}

impl<'a> Model for Screen<'a> {
    ghost use Rattle.std.specs.Prelude.{string_bytes};
    ghost use Rattle.mg_screen.specs.Screen as spec;

    ghost Value = { spec.Screen };

    ghost view = { λ s. record { panes = s.panes.items; echo = string_bytes s.echo } };
}

/// A row and a column of a screen, each from 0.
#[derive(Clone, Copy, PartialEq, Eq)]
pub struct Position {
    pub row: usize,
    pub column: usize,
}
