// Commit: the oldest processed event leaves the queue if its hour is below the agreed time, and its record is written.
#![tactic(auto)]

ghost use Rattle.std.specs.Prelude.{◌≡◌, ◌+◌, ◌≤◌, ◌<◌, length};
ghost use Rattle.model.specs.Messages.{kind_number, quantity_of};
ghost use Rattle.model.specs.Doing.{most_stock};
ghost use Rattle.lists.specs.Inside.Positions.{without};
ghost use Rattle.buffer.specs.Slice.{write};
ghost use Rattle.frame.specs.Layout.{whole_length};
ghost use Rattle.frame.specs.Kinds.{map_of_kind};
ghost use Rattle.gateway.specs.Committing.{record_of, recorded, commit};
ghost use Rattle.gateway.specs.Answers.{answer_of};
ghost use Rattle.gateway.specs.Calls.{left, committed};
ghost use Rattle.gateway.specs.Inside.Premises.{Known, Leaves};

use decoding::read_entry;
use doing::state_after;
use encoding::write_state;
use entries::frame_if;
use frame::lamps::PLAIN_LENGTH;
use frame::tables::RESTOCK_LENGTH;
use memory::{Entry, HEADER_SIZE, Header, Mark, QUEUE_SIZE, STATE_SIZE};
use model::Kind;
use places::changes::remove_entry;
use places::search::next_marked;
use refusal::Refusal;
use soundness::checked;
use writer::outgoing::put_frame;

pub fn commit(memory: &mut [u8], output: &mut [u8]) -> Result<usize, Refusal>
    ensures { left (answer_of result) memory.new output.new ≡ committed memory.old output.old }
{
    let header = checked(memory)?;
    commit_oldest(memory, output, header)
}

// Any event at the agreed hour stays, as a message of that very hour may still come.
fn commit_oldest(memory: &mut [u8], output: &mut [u8], header: Header) -> Result<usize, Refusal>
    requires { Known memory.old header }
    ensures { Leaves result memory output commit }
{
    let Some(k) = next_marked(memory, 0, header.queued as usize, Mark::Processed) else {
        return Err(Refusal::NothingToDo);
    };
    let entry = read_entry(memory, HEADER_SIZE + QUEUE_SIZE * k);
    let message = entry.message;
    if header.agreed <= message.hour {
        return Err(Refusal::NothingToDo);
    }
    commit_place(memory, output, header, k, entry)
}

// Takes the event out of queue place k and writes its record, if there is room for it.
fn commit_place(
    memory: &mut [u8],
    output: &mut [u8],
    header: Header,
    k: usize,
    entry: Entry,
) -> Result<usize, Refusal>
    requires { Known memory.old header
        × (k < header.queued)
        × (length entry.message.lamp ≡ 18)
        × (kind_number entry.message.kind ≤ 3)
        × (entry.before.stock + quantity_of entry.message.kind ≤ most_stock) }
    ensures { Leaves result memory output (λ room g. recorded room entry (without k g.queue) g) }
{
    let message = entry.message;
    let kind = message.kind;
    let size = event_length(kind) + STATE_SIZE;
    if output.len() < size {
        return Err(Refusal::NoRoom);
    }
    put_record(output, entry);
    remove_entry(memory, header, k);
    Ok(size)
}

// How long the frame of an event of that kind is: a Restock, or else a message with a lamp.
fn event_length(kind: Kind) -> usize
    requires { kind_number kind ≤ 3 }
    ensures { result ≡ whole_length (map_of_kind (kind_number kind)) }
{
    match kind {
        Kind::Restock { .. } => RESTOCK_LENGTH,
        _ => PLAIN_LENGTH,
    }
}

// Puts an event's record: its frame, then the state after it.
fn put_record(output: &mut [u8], entry: Entry)
    requires { (length (record_of entry) ≤ length output.old) × (entry.before.stock + quantity_of entry.message.kind ≤ most_stock) }
    ensures { output.new ≡ write 0 (record_of entry) output.old }
{
    let message = entry.message;
    let kind = message.kind;
    let state = state_after(entry.before, kind);
    let next = put_frame(output, 0, frame_if(false, message));
    write_state(output, next, state);
}
