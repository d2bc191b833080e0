// Changes of a gateway's memory: a place taken out, those behind it moved down, and the count in the header written last.
ghost use Rattle.std.specs.Prelude.{◌≡◌, ◌+◌, ◌*◌, ◌-◌, ◌<◌, ◌≤◌, length};
ghost use Rattle.buffer.specs.Slice.{part, write};
ghost use Rattle.buffer.specs.Number.{bytes_of};
ghost use Rattle.gateway.specs.Inside.Premises.{Known};
ghost use Rattle.places.specs.Inside.Changes.{without_entry, without_sent};

use crate::place::Place;
use buffer::{Number, move_within};
use memory::{Entry, HEADER_SIZE, Header, QUEUE_SIZE, Sent};

// Takes the entry out of queue place k.
pub fn remove_entry(memory: &mut [u8], header: Header, k: usize)
    requires { Known memory.old header × (k < header.queued) }
    ensures { memory.new ≡ without_entry k memory.old }
{
    remove::<Entry>(memory, HEADER_SIZE, header.queued, k);
}

// Takes what is outstanding out of outstanding place k.
pub fn remove_sent(memory: &mut [u8], header: Header, k: usize)
    requires { Known memory.old header × (k < header.outstanding) }
    ensures { memory.new ≡ without_sent k memory.old }
{
    let base = HEADER_SIZE + QUEUE_SIZE * (header.settings.q as usize);
    remove::<Sent>(memory, base, header.outstanding, k);
}

// Takes what is there out of place k, of count from position base on.
fn remove<P: Place>(memory: &mut [u8], base: usize, count: u16, k: usize)
    requires below { k < count }
    requires header { P.COUNT_AT + 2 ≤ length memory.old }
    requires inside { base + P.SIZE * count ≤ length memory.old }
    ensures { memory.new ≡ write P.COUNT_AT (bytes_of 2 (count - 1)) (write (base + P.SIZE * k) (part memory.old (base + P.SIZE * k + P.SIZE) (P.SIZE * (count - k - 1))) memory.old) }
{
    let at = base + P::SIZE * k;
    let behind = count as usize - k - 1;
    move_within(memory, at + P::SIZE, at, P::SIZE * behind);
    (count - 1).write(memory, P::COUNT_AT);
}
