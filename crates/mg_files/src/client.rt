//! The replica that connects.
ghost use Rattle.mg_files.specs.Asking.{Connects};
ghost use Rattle.mg_files.specs.Linking.{ExchangesOver, account};
ghost use Rattle.mg_files.specs.Meeting.{CountsFaults};

use crate::asking::ask;
use crate::fault::ExchangeFault;
use crate::port::Port;
use crate::saving::save;
use crate::talking::{Exchanged, hear, peer_answer, tell};
use mg_buffer::VisitedBuffer;
use rga_exchange::Counted;
use rga_store::Teller;
use std::alloc::Global;

/// Exchanges a buffer with the peer that a port connects to: saves it, opens a link, sends all that
/// it holds, ends the sending, takes what the peer says, and saves it again. Answers how many
/// operations were sent and how many received.
///
/// Faults, in this order: `Save` of the first save; `Link` where no link is opened; `Send`; `Link`
/// where the sending is not ended; `Receive`; `Save` of the second save. Nothing is done behind a
/// fault, but for one: where the peer is not heard to its end, what was taken of it is saved all
/// the same, and `Receive` is answered, whatever comes of that save. Whatever is answered, the
/// buffer has what it had, and its name, replica, limit, point, mark and groups stay.
///
/// Where the buffer's exchanges are brief it first tells what it holds in short, and hears what the
/// peer knows; then it sends only what the peer lacks by that. `Send` and `Receive` may come there
/// too, and nothing else is done then.
pub fn exchange<S: Teller, P: Port>(
    alloc: Global,
    opened: &mut VisitedBuffer<S>,
    port: &mut P,
) -> Result<Exchanged, ExchangeFault>
    ensures exchanges { ExchangesOver
        (account P.Link.remaining P.Link.contents P.links P.calls port.old port.new)
        opened.old opened.new Connects result }
    ensures device { CountsFaults result (P.failures port.old) (P.failures port.new) }
{
    save(alloc, opened, port)?;
    let mut writer = Counted::new(port.connect()?);
    let peer = ask(alloc, opened, &mut writer)?;
    let sent = tell(alloc, opened, &peer, &mut writer)?;
    let mut link = writer.into_inner();
    port.finish(&mut link)?;
    let mut reader = Counted::new(link);
    let heard = hear(alloc, opened, &mut reader);
    let received = peer_answer(heard, save(alloc, opened, port))?;
    Ok(Exchanged { sent, received })
}
