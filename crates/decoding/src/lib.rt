// What the bytes of a queue place and of an outstanding place hold.
#![tactic(auto)]

ghost use Rattle.std.specs.Prelude.{◌≡◌, ◌+◌, ◌≤◌, length};
ghost use Rattle.memory.specs.Layout.{queue_size, outstanding_size, message_size, state_size};
ghost use Rattle.buffer.specs.Slice.{part};
ghost use Rattle.memory.specs.Codec.{mark_of, state_of, message_of, entry_of, sent_of};

use buffer::{Number, array_at};
use memory::{Entry, MESSAGE_SIZE, Mark, OUTSTANDING_SIZE, QUEUE_SIZE, Sent, ZEROS_AT};
use model::{Message, State, kind_of};

// The entry in the queue place from position at on.
pub fn read_entry(memory: &[u8], at: usize) -> Entry
    requires { at + queue_size ≤ length memory.now }
    ensures { result ≡ entry_of (part memory.now at queue_size) }
{
    entry_of(&memory[at..at + QUEUE_SIZE])
}

// The outstanding place from position at on.
pub fn read_sent(memory: &[u8], at: usize) -> Sent
    requires { at + outstanding_size ≤ length memory.now }
    ensures { result ≡ sent_of (part memory.now at outstanding_size) }
{
    sent_of(&memory[at..at + OUTSTANDING_SIZE])
}

// The entry that a queue place's bytes hold.
pub fn entry_of(place: &[u8]) -> Entry
    requires { queue_size ≤ length place.now }
    ensures { result ≡ entry_of place.now }
{
    Entry {
        message: message_of(place),
        mark: mark_of(place[0]),
        before: state_of(&place[MESSAGE_SIZE..ZEROS_AT]),
    }
}

// What an outstanding place's bytes hold.
pub fn sent_of(place: &[u8]) -> Sent
    requires { outstanding_size ≤ length place.now }
    ensures { result ≡ sent_of place.now }
{
    Sent {
        message: message_of(place),
        cancel: place[0] == 1,
    }
}

// The message in a place of either kind.
fn message_of(place: &[u8]) -> Message
    requires { message_size ≤ length place.now }
    ensures { result ≡ message_of place.now }
{
    Message {
        hour: u32::read(place, 4),
        from: place[2],
        to: place[3],
        kind: kind_of(place[1], place[8], u16::read(place, 10)),
        lamp: array_at(place, 12),
    }
}

pub fn state_of(bytes: &[u8]) -> State
    requires { state_size ≤ length bytes.now }
    ensures { result ≡ state_of bytes.now }
{
    State {
        stock: u32::read(bytes, 0),
        failed: u32::read(bytes, 4),
        fitted: u32::read(bytes, 8),
        short: u32::read(bytes, 12),
    }
}

// Any number past 1 is read as Waiting.
fn mark_of(number: u8) -> Mark
    ensures { result ≡ mark_of number }
{
    match number {
        0 => Mark::Pending,
        1 => Mark::Processed,
        _ => Mark::Waiting,
    }
}
