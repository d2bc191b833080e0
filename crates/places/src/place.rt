// The places of a gateway's memory, by kind: how many bytes one has, and what they hold.
ghost use Rattle.std.specs.Prelude.{◌≡◌, ◌+◌, ◌*◌, ◌≤◌, ℕ, List, length};
ghost use Rattle.buffer.specs.Slice.{part};
ghost use Rattle.memory.specs.Layout.{queue_size, outstanding_size, queued_at, outstanding_count_at};
ghost use Rattle.memory.specs.Codec.{entry_of, sent_of};

use decoding::{entry_of, sent_of};
use memory::{Entry, OUTSTANDING_COUNT_AT, OUTSTANDING_SIZE, QUEUE_SIZE, QUEUED_AT, Sent};

// What a place of the memory holds: how many bytes the place has, where the header counts the places that are used, and what its
// bytes hold.
pub trait Place: Copy {
    ghost SIZE: { ℕ };

    ghost COUNT_AT: { ℕ };

    ghost held: { List ℕ → Self };

    const SIZE: usize;

    const COUNT_AT: usize;

    fn held(place: &[u8]) -> Self
        requires { SIZE ≤ length place.now }
        ensures { result ≡ held place.now };
}

// A queue place.
impl Place for Entry {
    ghost SIZE = { queue_size };

    ghost COUNT_AT = { queued_at };

    ghost held = { entry_of };

    const SIZE: usize = QUEUE_SIZE;

    const COUNT_AT: usize = QUEUED_AT;

    fn held(place: &[u8]) -> Entry {
        entry_of(place)
    }
}

// An outstanding place.
impl Place for Sent {
    ghost SIZE = { outstanding_size };

    ghost COUNT_AT = { outstanding_count_at };

    ghost held = { sent_of };

    const SIZE: usize = OUTSTANDING_SIZE;

    const COUNT_AT: usize = OUTSTANDING_COUNT_AT;

    fn held(place: &[u8]) -> Sent {
        sent_of(place)
    }
}

// What place k holds of those from position base on.
pub fn place_at<P: Place>(memory: &[u8], base: usize, k: usize) -> P
    requires { base + P.SIZE * (k + 1) ≤ length memory.now }
    ensures { result ≡ P.held (part memory.now (base + P.SIZE * k) P.SIZE) }
{
    let at = base + P::SIZE * k;
    P::held(&memory[at..at + P::SIZE])
}
