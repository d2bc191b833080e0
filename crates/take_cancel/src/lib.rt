// Taking a cancel: the last equal plain message goes, undone first if it was processed; with none the cancel waits.
#![tactic(auto)]

ghost use Rattle.std.specs.Prelude.{◌≤◌, ◌<◌};
ghost use Rattle.model.specs.Messages.{kind_number};
ghost use Rattle.memory.specs.Inside.Fits.{MessageFits};
ghost use Rattle.gateway.specs.Effects.{settled, settling};
ghost use Rattle.gateway.specs.Taking.{waits, take_cancel};
ghost use Rattle.gateway.specs.Calls.{unless_below};
ghost use Rattle.gateway.specs.Inside.Premises.{Known, Leaves};
ghost use Rattle.rollback.specs.Inside.Entering.{struck_out};
ghost use Rattle.rollback.specs.Inside.Undone.{CanTakeOut, TakesOut};

use buffer::{Number, move_within};
use decoding::read_entry;
use effects::insert::{insert_place, unprocessed};
use effects::send::{outstanding_at, put_frames};
use header::write_header;
use memory::{HEADER_SIZE, Header, Mark, QUEUE_SIZE, QUEUED_AT};
use model::Message;
use places::search::{last_equal, place_for};
use refusal::Refusal;
use rollback::room::{acknowledgment, count_sent, has_room};
use rollback::undo::{undo, undo_entry};
use writer::outgoing::put_frame;

pub fn take_cancel(
    memory: &mut [u8],
    output: &mut [u8],
    header: Header,
    message: Message,
) -> Result<usize, Refusal>
    requires { Known memory.old header × MessageFits message × (kind_number message.kind ≤ 2) }
    ensures { Leaves result memory output (λ room g. unless_below message.hour g (settled room g (take_cancel message g))) }
{
    if message.hour < header.agreed {
        return Err(Refusal::BelowAgreedTime);
    }
    match last_equal(memory, header.queued as usize, message) {
        Some(k) => strike_out(memory, output, header, k, message),
        None => enter_cancel(memory, output, header, message),
    }
}

// The cancel waits in a queue place, after its equals. Of the header the count alone is written: nothing else of it changes.
fn enter_cancel(
    memory: &mut [u8],
    output: &mut [u8],
    header: Header,
    message: Message,
) -> Result<usize, Refusal>
    requires { Known memory.old header × MessageFits message × (kind_number message.kind ≤ 2) }
    ensures { Leaves result memory output (settling (waits message)) }
{
    let queued = header.queued as usize;
    let k = place_for(memory, queued, message);
    if !has_room(header, queued + 1, 0, output.len()) {
        return Err(Refusal::NoRoom);
    }
    let written = put_frame(output, 0, acknowledgment(true, message));
    insert_place(memory, queued, k, unprocessed(message, Mark::Waiting));
    (header.queued + 1).write(memory, QUEUED_AT);
    Ok(written)
}

// The equal plain message in queue place k goes. If it was processed, the processed ones behind it are undone, then it.
fn strike_out(
    memory: &mut [u8],
    output: &mut [u8],
    header: Header,
    k: usize,
    message: Message,
) -> Result<usize, Refusal>
    requires { Known memory.old header × (k < header.queued) × MessageFits message × (kind_number message.kind ≤ 2) }
    ensures { Leaves result memory output (settling (struck_out k message)) }
{
    let sent = count_sent(memory, header, k);
    if !has_room(header, 0, sent, output.len()) {
        return Err(Refusal::NoRoom);
    }
    let next = take_out(memory, header, k);
    let reply = acknowledgment(true, message);
    let written = put_frames(memory, output, reply, outstanding_at(header), sent);
    write_header(memory, next);
    Ok(written)
}

// Takes the entry out of queue place k, those behind it moved down, and undoes those and then it. The place that is freed keeps its bytes.
fn take_out(memory: &mut [u8], header: Header, k: usize) -> Header
    requires { CanTakeOut memory.old header k }
    ensures { TakesOut memory.old memory.new header k result }
{
    let at = HEADER_SIZE + QUEUE_SIZE * k;
    let entry = read_entry(memory, at);
    move_within(
        memory,
        at + QUEUE_SIZE,
        at,
        QUEUE_SIZE * (header.queued as usize - k - 1),
    );
    let mut next = header;
    next.queued = header.queued - 1;
    let behind = undo(memory, next, k);
    undo_entry(memory, behind, entry)
}
