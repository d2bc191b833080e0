// The least hours in a gateway's memory.
ghost use Rattle.std.specs.Prelude.{◌≡◌, ◌+◌, ◌*◌, ◌≤◌, ℕ, length};
ghost use Rattle.memory.specs.Layout.{queue_at, outstanding_at};
ghost use Rattle.memory.specs.Codec.{places_at};
ghost use Rattle.gateway.specs.Rounds.{least_outstanding, least_queued};
ghost use Rattle.places.specs.Inside.Searching.{Answers, entries_in, sent_in, due_hour, least_of};

use crate::place::{Place, place_at};
use entries::is_processed;
use memory::{Entry, HEADER_SIZE, QUEUE_SIZE, Sent};

// The hour that means nothing due.
const NOTHING_DUE: u32 = 4294967295;

// The least hour in the first count outstanding places behind q queue places.
pub fn least_outstanding(memory: &[u8], q: usize, count: usize) -> u32
    requires { outstanding_at q count ≤ length memory.now }
    ensures { result ≡ least_outstanding (sent_in q memory.now count) }
{
    let base = HEADER_SIZE + QUEUE_SIZE * q;
    least(memory, base, count, |sent: Sent| sent.message.hour)
}

// The least hour of what is not processed in the first count queue places.
pub fn least_queued(memory: &[u8], count: usize) -> u32
    requires { queue_at count ≤ length memory.now }
    ensures { result ≡ least_queued (entries_in memory.now count) }
{
    least(memory, HEADER_SIZE, count, |entry: Entry| due_hour(entry))
}

// An entry's hour, nothing due if it is processed.
fn due_hour(entry: Entry) -> u32
    ensures { result ≡ due_hour entry }
{
    if is_processed(entry.mark) {
        NOTHING_DUE
    } else {
        entry.message.hour
    }
}

// The least hour that count places from position base on come to, nothing due if there is none.
fn least<P: Place, F: Fn(P) -> u32>(memory: &[u8], base: usize, count: usize, hour: F) -> u32
    requires callable { F.IsAlwaysCallable hour }
    requires inside { base + P.SIZE * count ≤ length memory.now }
    ensures { (f : P → ℕ) → Answers (F.post hour) f → result ≡ least_of f (places_at P.held P.SIZE memory.now base count) }
{
    let mut least = NOTHING_DUE;
    for k in 0..count {
        least = least.min(hour(place_at(memory, base, k)));
    }
    least
}
