// What is asked of a stored message: its mark, whether it equals another or is later, the frame that it is, and where it is done.
#![tactic(auto)]

ghost use Rattle.std.specs.Prelude.{◌≡◌};
ghost use Rattle.memory.specs.Records.{site_of};
ghost use Rattle.memory.specs.Validity.{pending_mark, processed_mark, waiting_mark, equal, later, one_waits, frame_if};

use frame::{Frame, Sense};
use memory::{Mark, Settings};
use model::{Message, Site};
use order::compare;

// What a queue place holds: a plain message not processed, one that is, a waiting cancel.
pub fn is_pending(mark: Mark) -> bool
    ensures { result ≡ pending_mark mark }
{
    mark == Mark::Pending
}

pub fn is_processed(mark: Mark) -> bool
    ensures { result ≡ processed_mark mark }
{
    mark == Mark::Processed
}

pub fn is_waiting(mark: Mark) -> bool
    ensures { result ≡ waiting_mark mark }
{
    mark == Mark::Waiting
}

// Whether one of the two is a waiting cancel and the other is not.
pub fn one_waits(a: Mark, b: Mark) -> bool
    ensures { result ≡ one_waits a b }
{
    is_waiting(a) != is_waiting(b)
}

// Whether two messages are wholly equal.
#[tactic(auto, unfolding(memory::specs::Validity::equal))]
pub fn equal(a: Message, b: Message) -> bool
    ensures { result ≡ equal a b }
{
    compare(a, b).is_eq()
}

// Whether a is later than b in event order.
#[tactic(auto, unfolding(memory::specs::Validity::later))]
pub fn later(a: Message, b: Message) -> bool
    ensures { result ≡ later a b }
{
    compare(a, b).is_gt()
}

// A message as a frame: a cancel, or plain.
pub fn frame_if(cancel: bool, message: Message) -> Frame
    ensures { result ≡ frame_if cancel message }
{
    let sense = if cancel { Sense::Cancel } else { Sense::Plain };
    Frame { message, sense }
}

// Where a gateway's messages are done.
pub fn site_of(settings: Settings) -> Site
    ensures { result ≡ site_of settings }
{
    Site {
        own: settings.own,
        supplier: settings.supplier,
        last: settings.last,
        hours: settings.hours,
    }
}
