//! What an editing session is given.
ghost use Rattle.std.specs.Prelude.{◌≡◌, ◌↔◌, IsSome, IfSome};
ghost use Rattle.mg_screen.specs.Settings as spec;

use crate::{MAX_COLUMNS, MAX_ROWS, MIN_COLUMNS, MIN_ROWS};
use rga_store::MAX_LIMIT;
use std::marker::Model;

/// The greatest fill column.
pub const MAX_FILL: u16 = 9999;

/// What a session is asked to have, allowed or not.
#[derive(Drop)]
pub struct Values {
    /// The name of the buffer, and of its files.
    pub name: String,
    /// The replica whose operations the edits become.
    pub replica: u16,
    /// The rows and the columns of the screen.
    pub rows: usize,
    pub columns: usize,
    /// The fill column.
    pub fill: u16,
    /// The port of exchanges, where there are any.
    pub port: Option<u16>,
    /// Whether a frame follows each step.
    pub trace: bool,
    /// Whether the session is a live one.
    pub live: bool,
    /// Whether a live session tells changes of the text in place of frames.
    pub changes: bool,
    /// Whether a save of many operations appends them in runs.
    pub runs: bool,
    /// Whether an exchange tells first what is known, and sends only what the peer lacks.
    pub brief: bool,
    /// Whether a session ends in a fault where a save or an exchange failed and stands.
    pub strict: bool,
    /// How many identifiers the buffer may know.
    pub limit: usize,
}

impl Model for Values {
    ghost use Rattle.std.specs.Prelude.{string_bytes};
    ghost use Rattle.mg_screen.specs.Settings as spec;

    ghost Value = { spec.Values };

    ghost view = { λ v. record {
      name = string_bytes v.name;
      replica = v.replica;
      rows = v.rows;
      columns = v.columns;
      fill = v.fill;
      port = v.port;
      trace = v.trace;
      live = v.live;
      changes = v.changes;
      runs = v.runs;
      brief = v.brief;
      strict = v.strict;
      limit = v.limit;
    } };
}

/// Values within their limits.
#[derive(Drop)]
pub struct Settings {
    values: Values,
}

impl Model for Settings {
    ghost use Rattle.mg_screen.specs.Settings as spec;

    ghost Value = { spec.Values };

    ghost view = { λ s. s.values };

    ghost invariant = { λ s. spec.AreAllowed s.values };
}

impl Settings {
    /// The settings of these values, where each is within its limits: a name that is not empty, a
    /// replica from 1 on, the rows and columns that a screen may have, a fill column from 1 to
    /// `MAX_FILL`, a port from 1 on, and a limit that a store may have. A live session is not traced,
    /// and only a live one tells changes. Takes no memory.
    pub fn new(values: Values) -> Option<Settings>
        ensures exact { IsSome result ↔ spec.AreAllowed values }
        ensures values { IfSome result (λ settings. settings ≡ values) }
    {
        if values.name.as_str().is_empty() || values.replica == 0 || values.port == Some(0) {
            return None;
        }
        if values.rows < MIN_ROWS || values.rows > MAX_ROWS {
            return None;
        }
        if values.columns < MIN_COLUMNS || values.columns > MAX_COLUMNS {
            return None;
        }
        if values.fill == 0 || values.fill > MAX_FILL {
            return None;
        }
        if values.limit == 0 || values.limit > MAX_LIMIT {
            return None;
        }
        if values.live && values.trace {
            return None;
        }
        if values.changes && !values.live {
            return None;
        }
        Some(Settings { values })
    }

    /// The values, each of which is within its limits.
    pub fn values(&self) -> &Values
        ensures exact { result.now ≡ self.now }
        ensures allowed { spec.AreAllowed result.now }
    {
        &self.values
    }
}
