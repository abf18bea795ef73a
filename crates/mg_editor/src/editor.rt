//! The state of the editor.
ghost use Rattle.std.specs.Prelude.{◌≡◌, ◌≤◌, ◌↔◌, [], false};
ghost use Rattle.mg_keys.specs.Begun.{HasBegun};
ghost use Rattle.mg_screen.specs.Layout.{FillsRows};
ghost use Rattle.mg_screen.specs.Size.{least_rows, most_rows, least_columns, most_columns};
ghost use Rattle.mg_workspace.specs.Actions.{resized_work};
ghost use Rattle.mg_editor.specs.Frames.{said_in};

use mg_minibuffer::{Dialogue, Message};
use mg_workspace::Workspace;
use rga_store::TextStore;
use std::alloc::Global;
use std::marker::Model;

/// An editor, over any store: what is worked on, and what is talked with the user.
#[derive(Drop)]
pub struct Editor<S: TextStore> {
    pub(crate) alloc: Global,
    pub(crate) work: Workspace<S>,
    pub(crate) talk: Dialogue,
}

impl<S: TextStore> Model for Editor<S> {
    ghost use Rattle.std.specs.Coded.{codes, coded_ℕ};
    ghost use Rattle.mg_buffer.specs.OpenState.{open_state_code};
    ghost use Rattle.mg_screen.specs.Layout.{layout_code};
    ghost use Rattle.mg_editor.specs.Editors as spec;

    ghost Value = { spec.Editor };

    ghost coded = { Prim.hlevel (codes, open_state_code, layout_code coded_ℕ) };

    ghost view = { λ e. record { work = e.work; talk = e.talk } };
}

impl<S: TextStore> Editor<S> {
    /// Says a message. Takes no memory.
    pub fn tell(&mut self, message: Message)
        ensures { self.new ≡ record self.old {
          talk = record self.old.talk { message = message };
        } }
    {
        self.talk.tell(message);
    }

    /// Whether the last byte that was pressed belongs to a key sequence that is not whole yet. Takes
    /// no memory.
    pub fn is_amid_keys(&self) -> bool
        ensures { (result ≡ false) ↔ HasBegun self.now.talk.keys [] }
    {
        self.talk.is_amid_keys()
    }

    /// A screen of so many rows and columns, as `Workspace::resize` has it. No buffer changes, nor
    /// which one is current. What is talked stays: a prompt, a message, a key sequence that is not
    /// whole yet; so a message goes on naming the buffer that it was said of. Takes no memory.
    pub fn resize(&mut self, rows: usize, columns: usize)
        requires rows_from { least_rows ≤ rows }
        requires rows_to { rows ≤ most_rows }
        requires columns_from { least_columns ≤ columns }
        requires columns_to { columns ≤ most_columns }
        ensures exact { self.new ≡
            record self.old { work = resized_work rows columns self.old.work } }
        ensures filled { FillsRows rows self.new.work.windows }
        ensures said { said_in self.new ≡ said_in self.old }
    {
        self.work.resize(rows, columns);
    }
}
