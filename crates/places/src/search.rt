// Looking through the places of a gateway's memory.
ghost use Rattle.std.specs.Prelude.{◌≡◌, ◌+◌, ◌*◌, ◌-◌, ◌≤◌, Bool, ℕ, length};
ghost use Rattle.memory.specs.Layout.{queue_at, outstanding_at};
ghost use Rattle.memory.specs.Codec.{places_at};
ghost use Rattle.lists.specs.Inside.Positions.{first_where, past_last};
ghost use Rattle.gateway.specs.Taking.{is_cancel_of, is_later, is_plain, is_sent};
ghost use Rattle.places.specs.Inside.Searching.{has_mark, entries_in, entries_from, sent_in, place_below, place_before, Answers};

use crate::place::{Place, place_at};
use entries::{equal, is_waiting, later};
use memory::{Entry, HEADER_SIZE, Mark, OUTSTANDING_SIZE, QUEUE_SIZE, Sent};
use model::Message;

// The first place from place start on, of count from position base on, that passes the test.
fn first<P: Place, F: Fn(P) -> bool>(
    memory: &[u8],
    base: usize,
    start: usize,
    count: usize,
    test: F,
) -> Option<usize>
    requires callable { F.IsAlwaysCallable test }
    requires order { start ≤ count }
    requires inside { base + P.SIZE * count ≤ length memory.now }
    ensures { (f : P → Bool) → Answers (F.post test) f
        → result ≡ place_below count (start + first_where f (places_at P.held P.SIZE memory.now (base + P.SIZE * start) (count - start))) }
{
    for k in start..count {
        if test(place_at(memory, base, k)) {
            return Some(k);
        }
    }
    None
}

// The last place, of count from position base on, that passes the test.
fn last<P: Place, F: Fn(P) -> bool>(
    memory: &[u8],
    base: usize,
    count: usize,
    test: F,
) -> Option<usize>
    requires callable { F.IsAlwaysCallable test }
    requires inside { base + P.SIZE * count ≤ length memory.now }
    ensures { (f : P → Bool) → Answers (F.post test) f
        → result ≡ place_before (past_last f (places_at P.held P.SIZE memory.now base count)) }
{
    for k in (0..count).rev() {
        if test(place_at(memory, base, k)) {
            return Some(k);
        }
    }
    None
}

// The first queue place from place start on whose entry has that mark.
pub fn next_marked(memory: &[u8], start: usize, queued: usize, mark: Mark) -> Option<usize>
    requires { (start ≤ queued) × (queue_at queued ≤ length memory.now) }
    ensures { result ≡ place_below queued (start + first_where (has_mark mark) (entries_from memory.now start queued)) }
{
    first(memory, HEADER_SIZE, start, queued, |entry: Entry| {
        entry.mark == mark
    })
}

// The first queue place that holds an equal cancel that waits.
pub fn cancel_of(memory: &[u8], queued: usize, message: Message) -> Option<usize>
    requires { queue_at queued ≤ length memory.now }
    ensures { result ≡ place_below queued (first_where (is_cancel_of message) (entries_in memory.now queued)) }
{
    first(memory, HEADER_SIZE, 0, queued, |entry: Entry| {
        is_waiting(entry.mark) && equal(entry.message, message)
    })
}

// The queue place that a message enters: the first that holds a later one, or else the one behind all.
pub fn place_for(memory: &[u8], queued: usize, message: Message) -> usize
    requires { queue_at queued ≤ length memory.now }
    ensures { result ≡ first_where (is_later message) (entries_in memory.now queued) }
{
    let found = first(memory, HEADER_SIZE, 0, queued, |entry: Entry| {
        later(entry.message, message)
    });
    found.unwrap_or(queued)
}

// The last queue place that holds an equal plain message.
pub fn last_equal(memory: &[u8], queued: usize, message: Message) -> Option<usize>
    requires { queue_at queued ≤ length memory.now }
    ensures { result ≡ place_before (past_last (is_plain message) (entries_in memory.now queued)) }
{
    last(memory, HEADER_SIZE, queued, |entry: Entry| {
        !is_waiting(entry.mark) && equal(entry.message, message)
    })
}

// The first outstanding place, behind q queue places, that holds this message or its cancel.
pub fn find_sent(
    memory: &[u8],
    q: usize,
    outstanding: usize,
    cancel: bool,
    message: Message,
) -> Option<usize>
    requires { outstanding_at q outstanding ≤ length memory.now }
    ensures { result ≡ place_below outstanding (first_where (is_sent cancel message) (sent_in q memory.now outstanding)) }
{
    let base = HEADER_SIZE + QUEUE_SIZE * q;
    first(memory, base, 0, outstanding, |sent: Sent| {
        sent.cancel == cancel && equal(sent.message, message)
    })
}
