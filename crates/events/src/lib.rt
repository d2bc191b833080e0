// One event of work: 6 where no plain message is unprocessed, 5 where there is no room for what the next one sends, else it is done. It
// changes the memory alone: what it sends is put out later, from its outstanding place.
#![tactic(auto)]

ghost use Rattle.std.specs.Prelude.{◌≡◌, ◌+◌, ◌<◌, ◌≤◌};
ghost use Rattle.buffer.specs.Slice.{part};
ghost use Rattle.model.specs.Messages.{quantity_of};
ghost use Rattle.model.specs.Doing.{most_stock};
ghost use Rattle.memory.specs.Layout.{queue_size, queue_at};
ghost use Rattle.memory.specs.Codec.{entry_of};
ghost use Rattle.replies.specs.Inside.Turns.{Ready, Turns, TurnsAt, stopped_with};

use decoding::read_entry;
use doing::{reply_to, state_after};
use encoding::write_entry;
use entries::site_of;
use memory::{Entry, HEADER_SIZE, Header, Mark, QUEUE_SIZE};
use places::search::next_marked;
use refusal::Refusal;
use replies::{Turn, has_room, reply_bytes, send_reply};

// One event, for an output of room bytes.
pub fn work_one(memory: &mut [u8], room: usize, turn: Turn) -> Turn
    requires { Ready memory.old room turn }
    ensures { Turns memory.old room memory.new turn result }
{
    let queued = turn.header.queued as usize;
    match next_marked(memory, turn.place, queued, Mark::Pending) {
        Some(k) => work_at(memory, room, turn, k),
        None => stopped(turn, Refusal::NothingToDo),
    }
}

// Does the message in queue place k.
fn work_at(memory: &mut [u8], room: usize, turn: Turn, k: usize) -> Turn
    requires { Ready memory.old room turn
        × (k < turn.header.queued)
        × (turn.header.state.stock + quantity_of (entry_of (part memory.old (queue_at k) queue_size)).message.kind ≤ most_stock) }
    ensures { TurnsAt k memory.old room memory.new turn result }
{
    let header = turn.header;
    let state = header.state;
    let at = HEADER_SIZE + QUEUE_SIZE * k;
    let entry = read_entry(memory, at);
    let message = entry.message;
    let reply = reply_to(site_of(header.settings), state, message);
    let bytes = reply_bytes(reply);
    if !has_room(header, reply, bytes, room - turn.written) {
        return stopped(turn, Refusal::NoRoom);
    }
    let done = Entry {
        message,
        mark: Mark::Processed,
        before: state,
    };
    write_entry(memory, at, done);
    let next = Header {
        state: state_after(state, message.kind),
        ..header
    };
    let last = send_reply(memory, next, reply);
    Turn {
        header: last,
        written: turn.written + bytes,
        place: k + 1,
        why: None,
    }
}

// Work that stops, for that reason.
fn stopped(turn: Turn, why: Refusal) -> Turn
    ensures { result ≡ stopped_with why turn }
{
    Turn {
        why: Some(why),
        ..turn
    }
}
