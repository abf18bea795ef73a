//! What passes over a link before an exchange that is brief.
ghost use Rattle.std.specs.Prelude.{IfOk};
ghost use Rattle.rga_ops.specs.Content.{Content};
ghost use Rattle.rga_brief.specs.Told.{IsTold};
ghost use Rattle.mg_files.specs.Asking.{Asks, Connects, SaysOver, Waits};

use crate::fault::ExchangeFault;
use mg_buffer::VisitedBuffer;
use rga_brief::{Summary, hear_summary, send_lines, summary_lines};
use rga_exchange::{Counted, SendFault};
use rga_ops::OutOfMemory;
use rga_store::Teller;
use std::alloc::Global;
use std::io::{Read, Write};

/// Asks a peer what it knows, where the exchanges of a buffer are brief: tells first what the buffer
/// holds in short, and then hears the peer. `None` where they are not, and nothing passes then.
pub(crate) fn ask<S: Teller, L: Read + Write>(
    alloc: Global,
    opened: &VisitedBuffer<S>,
    link: &mut Counted<L>,
) -> Result<Option<Summary>, ExchangeFault>
    ensures { Asks (record { remaining = L.remaining; contents = L.contents }) result Connects
        opened.now link.old link.new }
{
    if !opened.is_brief() {
        return Ok(None);
    }
    say(own_lines(alloc, opened), link)?;
    let peer = hear_summary(alloc, link)?;
    Ok(Some(peer))
}

/// Answers a peer that asks, where the exchanges of a buffer are brief: hears first what it knows,
/// and then tells what the buffer holds in short. `None` where they are not, and nothing passes
/// then.
pub(crate) fn answer<S: Teller, L: Read + Write>(
    alloc: Global,
    opened: &VisitedBuffer<S>,
    link: &mut Counted<L>,
) -> Result<Option<Summary>, ExchangeFault>
    ensures { Asks (record { remaining = L.remaining; contents = L.contents }) result Waits
        opened.now link.old link.new }
{
    if !opened.is_brief() {
        return Ok(None);
    }
    // They are made while the peer still makes its own.
    let lines = own_lines(alloc, opened);
    let peer = hear_summary(alloc, link)?;
    say(lines, link)?;
    Ok(Some(peer))
}

/// What a buffer holds in short, as lines. `Memory` alone.
fn own_lines<S: Teller>(alloc: Global, opened: &VisitedBuffer<S>) -> Result<Vec<u8>, OutOfMemory>
    ensures { IfOk result (λ lines. IsTold lines.items opened.now.buffer.content) }
{
    summary_lines(alloc, opened.buffer.store())
}

/// Tells what a buffer holds in short, by these lines, if there was memory for them.
fn say<L: Write>(
    lines: Result<Vec<u8>, OutOfMemory>,
    writer: &mut Counted<L>,
) -> Result<(), SendFault>
    ensures { (c : Content) → IfOk lines (λ lines. IsTold lines.items c)
        → SaysOver L.contents writer.old writer.new result c }
{
    let lines = lines?;
    send_lines(&lines, writer)
}
