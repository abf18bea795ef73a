//! How a session begins.
ghost use Rattle.std.specs.Prelude.{◌≡◌, ◌≢◌, ◌∷◌, [], ℕ, Err};
ghost use Rattle.rga_exchange.specs.Counting.{one_more};
ghost use Rattle.mg_files.specs.Calls.{Adds, found_call};
ghost use Rattle.mg_session.specs.Moments.{ToldCalls};
ghost use Rattle.mg_session.specs.Opening.{LoadsTo, opening_failures};
ghost use Rattle.mg_session.specs.declared.fault.SessionFault.TheVariants.{File};

use crate::fault::{SessionFault, of_load, of_port};
use mg_editor::Editor;
use mg_files::{Found, Port};
use mg_screen::Settings;
use rga_store::TextStore;
use std::alloc::Global;

/// Loads what is there under the name of the settings, and opens an editor of it. That is the one
/// call of the port.
///
/// `File` if the call fails, `Load` if what was found is refused, and `Memory`.
pub fn open<S: TextStore, P: Port>(
    alloc: Global,
    port: &mut P,
    settings: &Settings,
) -> Result<Editor<S>, SessionFault>
    ensures loaded { LoadsTo settings.now (P.calls port.old) (P.calls port.new) result }
    ensures file { result ≡ Err File → P.failures port.new ≡ one_more (P.failures port.old) }
    ensures device { P.failures port.new ≡ opening_failures result (P.failures port.old) }
{
    match port.load(settings.values().name.as_str()) {
        Ok(found) => edit(alloc, settings, found),
        Err(fault) => Err(of_port(fault)),
    }
}

/// An editor of what was found.
fn edit<S: TextStore>(
    alloc: Global,
    settings: &Settings,
    found: Found,
) -> Result<Editor<S>, SessionFault>
    ensures loaded { (calls told : ToldCalls) →
        Adds calls told (found_call settings.now.name found ∷ []) →
        LoadsTo settings.now calls told result }
    ensures device { (failed : ℕ) → opening_failures result failed ≡ failed }
    ensures file { result ≢ Err File }
{
    match Editor::new(alloc, settings, found) {
        Ok(editor) => Ok(editor),
        Err(fault) => Err(of_load(fault)),
    }
}
