//! The replica that waits.
ghost use Rattle.mg_files.specs.Asking.{Waits};
ghost use Rattle.mg_files.specs.Linking.{ExchangesOver, account};
ghost use Rattle.mg_files.specs.Meeting.{CountsFaults};

use crate::asking::answer;
use crate::fault::ExchangeFault;
use crate::port::Port;
use crate::saving::save;
use crate::talking::{Exchanged, hear, peer_answer, tell};
use mg_buffer::VisitedBuffer;
use rga_exchange::Counted;
use rga_store::Teller;
use std::alloc::Global;

/// Exchanges a buffer with the first peer that a port accepts: saves it, waits for a link, takes
/// what the peer says, saves it again, and only then sends all that it holds. Answers how many
/// operations were sent and how many received.
///
/// Faults, in this order: `Save` of the first save; `Link` where no link is opened; `Receive`;
/// `Save` of the second save; `Send`. Nothing is done behind a fault, but for one: where the peer is
/// not heard to its end, what was taken of it is saved all the same, and `Receive` is answered,
/// whatever comes of that save; no reply is sent then. Whatever is answered, the buffer has what it
/// had, and its name, replica, limit, point, mark and groups stay.
///
/// Where the buffer's exchanges are brief it first hears what the peer knows, and tells what it
/// holds in short; its reply is then only what the peer lacks by that. `Receive` and `Send` may come
/// there too, and nothing else is done then.
pub fn serve<S: Teller, P: Port>(
    alloc: Global,
    opened: &mut VisitedBuffer<S>,
    port: &mut P,
) -> Result<Exchanged, ExchangeFault>
    ensures serves { ExchangesOver
        (account P.Link.remaining P.Link.contents P.links P.calls port.old port.new)
        opened.old opened.new Waits result }
    ensures device { CountsFaults result (P.failures port.old) (P.failures port.new) }
{
    save(alloc, opened, port)?;
    let mut reader = Counted::new(port.accept()?);
    let peer = answer(alloc, opened, &mut reader)?;
    let heard = hear(alloc, opened, &mut reader);
    let received = peer_answer(heard, save(alloc, opened, port))?;
    let mut writer = Counted::new(reader.into_inner());
    let sent = tell(alloc, opened, &peer, &mut writer)?;
    Ok(Exchanged { sent, received })
}
