//! The frame that was shown last.
ghost use Rattle.std.specs.Prelude.{◌≡◌, map, nat_eq, string_bytes};
ghost use Rattle.std.specs.Cmp.Lexicographic.{pointwise};

use mg_events::PlaceStatus;
use mg_screen::Position;
use std::alloc::Global;
use std::marker::Model;

/// The frame that was shown last: its rows, its cursor, and the cells of the places of others.
#[derive(Drop)]
pub(crate) struct Shown {
    pub(crate) rows: Vec<String>,
    pub(crate) cursor: Option<Position>,
    pub(crate) places: Vec<PlaceStatus>,
}

impl Model for Shown {
    ghost use Rattle.std.specs.Prelude.{map, string_bytes};
    ghost use Rattle.mg_live.specs.States as spec;

    ghost Value = { spec.Shown };

    ghost view = { λ s. record {
      rows = map string_bytes s.rows.items;
      cursor = s.cursor;
      places = s.places.items;
    } };
}

impl Shown {
    ghost use Rattle.std.specs.Prelude.{◌≡◌};
    ghost use Rattle.mg_live.specs.States as spec;

    /// Nothing was shown yet. Takes no memory.
    pub(crate) fn new(alloc: Global) -> Shown
        ensures { result ≡ spec.nothing_shown }
    {
        Shown {
            rows: Vec::new(alloc),
            cursor: None,
            places: Vec::new(alloc),
        }
    }
}

/// Whether these are the same rows.
pub(crate) fn are_same_rows(last: &[String], rows: &[String]) -> bool
    ensures { result ≡ pointwise (pointwise nat_eq)
        (map string_bytes last.now) (map string_bytes rows.now) }
{
    last == rows
}
