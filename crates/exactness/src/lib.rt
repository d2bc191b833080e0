// Whether a place's bytes are just those of what it is read as.
#![tactic(auto)]

ghost use Rattle.std.specs.Prelude.{◌≡◌, ◌≤◌, length, drop, replicate};
ghost use Rattle.memory.specs.Layout.{queue_size, outstanding_size, message_size, zeros_at, zeros_size};
ghost use Rattle.memory.specs.Codec.{entry_bytes, entry_of, sent_bytes, sent_of};
ghost use Rattle.buffer.specs.Slice.{same_bytes};
ghost use Rattle.exactness.specs.Inside.Exact.{message_exact};

use buffer::{Number, array_at};
use memory::{Entry, MESSAGE_SIZE, Sent, ZEROS_AT};
use model::{Message, kind_number, origin_of, quantity_of};

// Whether a queue place holds just the bytes of the entry that was read from it. Bytes that are read as they stand need no test.
pub fn entry_exact(place: &[u8], entry: Entry) -> bool
    requires { (length place.now ≡ queue_size) × (entry ≡ entry_of place.now) }
    ensures { result ≡ same_bytes (entry_bytes entry) place.now }
{
    place[0] <= 2 && message_exact(place, entry.message) && zeros(place)
}

// Whether an outstanding place holds just the bytes of what was read from it.
pub fn sent_exact(place: &[u8], sent: Sent) -> bool
    requires { (length place.now ≡ outstanding_size) × (sent ≡ sent_of place.now) }
    ensures { result ≡ same_bytes (sent_bytes sent) place.now }
{
    place[0] <= 1 && message_exact(place, sent.message) && u16::read(place, MESSAGE_SIZE) == 0
}

// Whether kind, origin, byte 9 and quantity in a place of either kind are those that a message is written with.
#[tactic(auto, unfolding(crate::specs::Inside::Exact::message_exact))]
fn message_exact(place: &[u8], message: Message) -> bool
    requires { message_size ≤ length place.now }
    ensures { result ≡ message_exact place.now message }
{
    let kind = message.kind;
    place[1] == kind_number(kind)
        && place[8] == origin_of(kind)
        && place[9] == 0
        && u16::read(place, 10) == quantity_of(kind)
}

// Whether a queue place's last eighteen bytes are zero.
fn zeros(place: &[u8]) -> bool
    requires { length place.now ≡ queue_size }
    ensures { result ≡ same_bytes (replicate zeros_size 0) (drop zeros_at place.now) }
{
    array_at(place, ZEROS_AT) == [0; 18]
}
