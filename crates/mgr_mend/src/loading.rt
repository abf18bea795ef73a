//! A note as it is found.
ghost use Rattle.std.specs.Prelude.{◌≡◌, IfOk, IfErr, OnErr};
ghost use Rattle.mgr_mend.specs.Merging.{FindsNoNote, IsOfFinding, IsOfNote, LoadsNote, OnlyLoads, calls_failed};

use crate::fault::MergeFault;
use mg_buffer::VisitedBuffer;
use mg_files::{Found, Port, load};
use rga_store::{MAX_LIMIT, TextStore};
use std::alloc::Global;
use std::marker::Model;

/// The replica whose buffer takes what is merged: it makes no operation.
const REPLICA: u16 = 1;

/// What stands beside the operations of a note: whether there is a log, and the text, if it was
/// found. The text that a port knows as its own is not.
#[derive(Drop)]
pub(crate) struct Beside {
    pub(crate) logged: bool,
    pub(crate) text: Option<Vec<u8>>,
}

impl Model for Beside {
    ghost use Rattle.std.specs.Option.{option_map};
    ghost use Rattle.mgr_mend.specs.Beside.{Beside as BesideNote};

    ghost Value = { BesideNote };

    ghost view = { λ b. record {
      logged = b.logged;
      text = option_map (λ bytes. bytes.items) b.text;
    } };
}

/// Loads a note. A text without a log is none.
pub(crate) fn load_note<S: TextStore, P: Port>(
    alloc: Global,
    port: &mut P,
    name: &str,
) -> Result<(VisitedBuffer<S>, Beside), MergeFault>
    ensures loaded { IfOk result (λ p.
        LoadsNote (P.calls port.old) (P.calls port.new) name.now p.0 p.1) }
    ensures refused { IfErr result (λ e. IsOfNote e
        → FindsNoNote (P.calls port.old) (P.calls port.new) name.now e) }
    ensures fault { IfErr result (λ e. IsOfFinding e) }
    ensures begun { OnErr result (OnlyLoads (P.calls port.old) (P.calls port.new) name.now) }
    ensures device { P.failures port.new ≡ calls_failed result (P.failures port.old) }
{
    let Found { log, text } = port.load(name)?;
    if log.is_none() {
        if text.is_some() {
            return Err(MergeFault::NoLog);
        }
    }
    let beside = Beside {
        logged: log.is_some(),
        text,
    };
    let (opened, _end) = load(alloc, name, REPLICA, MAX_LIMIT, Found { log, text: None })?;
    Ok((opened, beside))
}
