//! What a live session keeps beside its editor.
ghost use Rattle.std.specs.Prelude.{◌≡◌, IfOk, chars};

use crate::changes::Changes;
use crate::gathered::Gathered;
use crate::shown::Shown;
use crate::tally::Tally;
use crate::telling::Telling;
use mg_files::PortFault;
use mg_screen::Values;
use rga_ops::Id;
use std::alloc::{AllocError, Global};
use std::marker::Model;

/// What a live session keeps beside its editor.
#[derive(Drop)]
pub(crate) struct Live {
    pub(crate) alloc: Global,
    /// The name of the live buffer.
    pub(crate) name: Vec<char>,
    pub(crate) tally: Tally,
    /// Pasted text that more is to come of.
    pub(crate) paste: Gathered,
    /// The same of the text of a splice.
    pub(crate) splice: Gathered,
    pub(crate) telling: Telling,
    /// The changes of the live buffer's text, where they are asked for.
    pub(crate) changes: Option<Changes>,
    /// The identifiers after which the cursors of others stand.
    pub(crate) places: Vec<Id>,
    /// Whether a log was read when the live buffer was opened first.
    pub(crate) loaded: bool,
    /// How the last writing of a log ended.
    pub(crate) saved: Option<Result<(), PortFault>>,
    /// The frame that was shown last.
    pub(crate) shown: Shown,
}

impl Model for Live {
    ghost use Rattle.mg_live.specs.States as spec;

    ghost Value = { spec.Live };

    ghost view = { λ l. record {
      name = l.name.items;
      tally = l.tally;
      paste = l.paste;
      splice = l.splice;
      telling = l.telling;
      changes = l.changes;
      places = l.places.items;
      loaded = l.loaded;
      saved = l.saved;
      shown = l.shown;
    } };
}

impl Live {
    ghost use Rattle.std.specs.Prelude.{◌≡◌, IfOk, chars};
    ghost use Rattle.mg_live.specs.Running.{fresh_live};
    ghost use Rattle.mg_screen.specs.Settings as settings;

    /// What a session of these settings keeps before an editor is open.
    pub(crate) fn new(alloc: Global, values: &Values) -> Result<Live, AllocError>
        ensures { IfOk result (λ live. live ≡ fresh_live values.now) }
    {
        Ok(Live {
            alloc,
            name: name_of(alloc, values)?,
            tally: Tally::new(alloc),
            paste: Gathered::new(alloc),
            splice: Gathered::new(alloc),
            telling: Telling::new(alloc),
            changes: values.changes.then_some(Changes::new(alloc)),
            places: Vec::new(alloc),
            loaded: false,
            saved: None,
            shown: Shown::new(alloc),
        })
    }
}

/// The characters of the buffer's name.
fn name_of(alloc: Global, values: &Values) -> Result<Vec<char>, AllocError>
    ensures { IfOk result (λ name. name.items ≡ chars values.now.name) }
{
    values.name.as_str().chars().collect(alloc)
}
