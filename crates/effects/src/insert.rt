// An entry that is not processed, and an entry put into its queue place, those from there on moved up.
ghost use Rattle.std.specs.Prelude.{◌≡◌, ◌+◌, ◌≤◌, length};
ghost use Rattle.memory.specs.Layout.{queue_size, queue_at};
ghost use Rattle.memory.specs.Validity.{no_state};
ghost use Rattle.effects.specs.Inside.Placed.{entry_inserted};

use buffer::move_within;
use encoding::write_entry;
use memory::{Entry, HEADER_SIZE, Mark, QUEUE_SIZE};
use model::{Message, State};

// An entry that is not processed: a plain message, or a cancel that waits.
pub fn unprocessed(message: Message, mark: Mark) -> Entry
    ensures { result ≡ record { message = message; mark = mark; before = no_state } }
{
    Entry {
        message,
        mark,
        before: State::default(),
    }
}

// Puts an entry into queue place k of so many that are used.
pub fn insert_place(memory: &mut [u8], queued: usize, k: usize, entry: Entry)
    requires { (k ≤ queued) × (queue_at queued + queue_size ≤ length memory.old) }
    ensures { memory.new ≡ entry_inserted queued k entry memory.old }
{
    let at = HEADER_SIZE + QUEUE_SIZE * k;
    move_within(memory, at, at + QUEUE_SIZE, QUEUE_SIZE * (queued - k));
    write_entry(memory, at, entry);
}
