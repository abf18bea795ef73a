//! What passes between a buffer and a peer.
ghost use Rattle.std.specs.Prelude.{◌≡◌, ℕ};
ghost use Rattle.mg_files.specs.Calls.{failures_after};
ghost use Rattle.mg_files.specs.Meeting as spec;
ghost use Rattle.mg_files.specs.Talking.{SendsOver, HearsOver};

use crate::fault::ExchangeFault;
use crate::port::PortFault;
use mg_buffer::VisitedBuffer;
use rga_brief::{Summary, send_missing};
use rga_exchange::{Counted, ReceiveFault, SendFault, receive, send};
use rga_store::{Teller, TextStore};
use std::alloc::Global;
use std::io::{Read, Write};

/// How many operations were sent, and how many were received.
#[derive(Clone, Copy)]
pub struct Exchanged {
    pub sent: u64,
    pub received: u64,
}

/// Sends what a buffer holds: all of it, or what the peer lacks by the summary that it gave.
pub(crate) fn tell<S: Teller, L: Write>(
    alloc: Global,
    opened: &VisitedBuffer<S>,
    peer: &Option<Summary>,
    writer: &mut Counted<L>,
) -> Result<u64, SendFault>
    ensures { SendsOver peer.now L.contents writer.old writer.new result
        opened.now.buffer.content }
{
    match peer {
        None => send(alloc, opened.buffer.store(), writer),
        Some(peer) => send_missing(alloc, opened.buffer.store(), peer, writer),
    }
}

/// Takes what a peer says into a buffer, up to its end or to a fault.
pub(crate) fn hear<S: TextStore, L: Read>(
    alloc: Global,
    opened: &mut VisitedBuffer<S>,
    reader: &mut Counted<L>,
) -> Result<u64, ReceiveFault>
    ensures { HearsOver L.remaining reader.old reader.new result opened.old opened.new }
{
    receive(alloc, &mut opened.buffer, reader)
}

/// What is answered of a peer that was heard, and of the save behind it: a fault of the peer before
/// one of the save.
pub(crate) fn peer_answer(
    heard: Result<u64, ReceiveFault>,
    saved: Result<bool, PortFault>,
) -> Result<u64, ExchangeFault>
    ensures answer { result ≡ spec.peer_answer heard saved }
    ensures device { (n : ℕ) → spec.CountsFaults result n (failures_after saved n) }
{
    match heard {
        Err(fault) => Err(ExchangeFault::Receive(fault)),
        Ok(received) => match saved {
            Err(fault) => Err(ExchangeFault::Save(fault)),
            Ok(_) => Ok(received),
        },
    }
}
