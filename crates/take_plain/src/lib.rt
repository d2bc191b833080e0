// Taking a plain message: where an equal cancel waits both vanish, otherwise it enters the queue after its equals.
#![tactic(auto)]

ghost use Rattle.std.specs.Prelude.{◌≡◌, ◌≤◌, ◌<◌, length};
ghost use Rattle.lists.specs.Inside.Positions.{without};
ghost use Rattle.model.specs.Messages.{kind_number};
ghost use Rattle.memory.specs.Inside.Fits.{MessageFits};
ghost use Rattle.gateway.specs.Effects.{settled, settling};
ghost use Rattle.gateway.specs.Taking.{entered, vanished, take_plain};
ghost use Rattle.gateway.specs.Calls.{unless_below};
ghost use Rattle.gateway.specs.Inside.Premises.{Known, Leaves};

use effects::insert::unprocessed;
use effects::send::{outstanding_at, put_frames};
use frame::lamps::SENSE_LENGTH;
use memory::{Header, Mark};
use model::Message;
use places::changes::remove_entry;
use places::search::{cancel_of, place_for};
use refusal::Refusal;
use rollback::room::{acknowledgment, count_sent, enter, has_room};
use rollback::undo::undo;
use writer::outgoing::put_frame;

pub fn take_plain(
    memory: &mut [u8],
    output: &mut [u8],
    header: Header,
    message: Message,
) -> Result<usize, Refusal>
    requires { Known memory.old header × MessageFits message × (kind_number message.kind ≤ 2) }
    ensures { Leaves result memory output (λ room g. unless_below message.hour g (settled room g (take_plain message g))) }
{
    if message.hour < header.agreed {
        return Err(Refusal::BelowAgreedTime);
    }
    match cancel_of(memory, header.queued as usize, message) {
        Some(k) => meet_cancel(memory, output, header, k, message),
        None => enter_plain(memory, output, header, message),
    }
}

// The message and the equal cancel that waits in queue place k vanish.
fn meet_cancel(
    memory: &mut [u8],
    output: &mut [u8],
    header: Header,
    k: usize,
    message: Message,
) -> Result<usize, Refusal>
    requires { Known memory.old header × (k < header.queued) × (length message.lamp ≡ 18) × (kind_number message.kind ≤ 2) }
    ensures { Leaves result memory output (settling (λ g. vanished message (without k g.queue) g)) }
{
    if output.len() < SENSE_LENGTH {
        return Err(Refusal::NoRoom);
    }
    let written = put_frame(output, 0, acknowledgment(false, message));
    remove_entry(memory, header, k);
    Ok(written)
}

// The message enters the queue, and the processed messages behind it are undone.
fn enter_plain(
    memory: &mut [u8],
    output: &mut [u8],
    header: Header,
    message: Message,
) -> Result<usize, Refusal>
    requires { Known memory.old header × MessageFits message × (kind_number message.kind ≤ 2) }
    ensures { Leaves result memory output (settling (entered message)) }
{
    let queued = header.queued as usize;
    let k = place_for(memory, queued, message);
    let sent = count_sent(memory, header, k);
    if !has_room(header, queued + 1, sent, output.len()) {
        return Err(Refusal::NoRoom);
    }
    let next = undo(memory, header, k);
    let reply = acknowledgment(false, message);
    let end = put_frames(memory, output, reply, outstanding_at(header), sent);
    enter(memory, next, k, unprocessed(message, Mark::Pending));
    Ok(end)
}
