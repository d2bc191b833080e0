// A queue place and an outstanding place written into the memory, byte for byte.
#![tactic(auto)]

ghost use Rattle.std.specs.Prelude.{◌≡◌, ◌+◌, ◌≤◌, length};
ghost use Rattle.memory.specs.Layout.{queue_size, outstanding_size, message_size, state_size};
ghost use Rattle.buffer.specs.Slice.{write};
ghost use Rattle.memory.specs.Codec.{state_bytes, message_bytes, entry_bytes, sent_bytes};

use buffer::{Number, copy, write_all};
use memory::{Entry, MESSAGE_SIZE, OUTSTANDING_SIZE, QUEUE_SIZE, Sent, ZEROS_AT};
use model::{Message, State, kind_number, origin_of, quantity_of};

// Puts an entry into the queue place from position at on.
pub fn write_entry(memory: &mut [u8], at: usize, entry: Entry)
    requires { at + queue_size ≤ length memory.old }
    ensures { memory.new ≡ write at (entry_bytes entry) memory.old }
{
    write_message(memory, at, entry.mark as u8, entry.message);
    write_state(memory, at + MESSAGE_SIZE, entry.before);
    copy(memory, at + ZEROS_AT, &[0; QUEUE_SIZE - ZEROS_AT]);
}

// Puts a message or a cancel into the outstanding place from position at on.
pub fn write_sent(memory: &mut [u8], at: usize, sent: Sent)
    requires { at + outstanding_size ≤ length memory.old }
    ensures { memory.new ≡ write at (sent_bytes sent) memory.old }
{
    write_message(memory, at, u8::from(sent.cancel), sent.message);
    copy(
        memory,
        at + MESSAGE_SIZE,
        &[0; OUTSTANDING_SIZE - MESSAGE_SIZE],
    );
}

// Puts the bytes that places of both kinds begin with: the mark and the message.
fn write_message(memory: &mut [u8], at: usize, mark: u8, message: Message)
    requires { at + message_size ≤ length memory.old }
    ensures { memory.new ≡ write at (message_bytes mark message) memory.old }
{
    let kind = message.kind;
    write_all(
        memory,
        at,
        &[mark, kind_number(kind), message.from, message.to],
    );
    message.hour.write(memory, at + 4);
    write_all(memory, at + 8, &[origin_of(kind), 0]);
    quantity_of(kind).write(memory, at + 10);
    copy(memory, at + 12, &message.lamp);
}

pub fn write_state(memory: &mut [u8], at: usize, state: State)
    requires { at + state_size ≤ length memory.old }
    ensures { memory.new ≡ write at (state_bytes state) memory.old }
{
    write_all(
        memory,
        at,
        &[state.stock, state.failed, state.fitted, state.short],
    );
}
