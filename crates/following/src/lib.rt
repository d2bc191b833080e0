// Whether a queue entry may stand behind the one before it.
#![tactic(auto)]

ghost use Rattle.std.specs.Prelude.{◌≡◌, ◌&&◌, ◌||◌};
ghost use Rattle.memory.specs.Validity.{pending_mark, processed_mark};
ghost use Rattle.following.specs.Inside.Follows.{entry_follows};

use entries::{is_pending, is_processed, one_waits};
use memory::{Entry, Mark};
use order::compare;
use std::cmp::Ordering;

// Whether an entry may be the next behind another: the other is not later, and they are not a waiting cancel and an equal plain
// message. Where the hour is later already, the rest is not compared.
pub fn follows(before: Entry, entry: Entry) -> bool
    ensures { result ≡ entry_follows before entry }
{
    before.message.hour < entry.message.hour || compared_follow(before, entry)
}

// The same with all of both messages compared.
#[tactic(auto, unfolding(memory::specs::Validity::later, memory::specs::Validity::equal))]
fn compared_follow(before: Entry, entry: Entry) -> bool
    ensures { result ≡ entry_follows before entry }
{
    match compare(before.message, entry.message) {
        Ordering::Less => true,
        Ordering::Equal => !one_waits(before.mark, entry.mark),
        Ordering::Greater => false,
    }
}

// Whether a processed message stands behind an unprocessed plain one that was seen.
pub fn processed_behind(seen: bool, mark: Mark) -> bool
    ensures { result ≡ (seen && processed_mark mark) }
{
    seen && is_processed(mark)
}

// Whether an unprocessed plain message was seen, this place included.
pub fn pending_seen(seen: bool, mark: Mark) -> bool
    ensures { result ≡ (seen || pending_mark mark) }
{
    seen || is_pending(mark)
}
