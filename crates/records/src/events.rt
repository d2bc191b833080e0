// The events of a record that is taken, one after another.
ghost use Rattle.std.specs.Prelude.{◌≡◌, ◌<◌, ◌∷◌, length};
ghost use Rattle.records.specs.Events.{cut_events, record_refusal};

use crate::{StockField, event_length};

// The rest of a record whose events are all taken: gives of each event its bytes.
#[derive(Drop)]
pub struct Events<'a> {
    pub rest: &'a [u8],
    pub stock: StockField,
    ghost taken: { record_refusal stock rest.now ≡ 0 },
}

impl<'a> Iterator for Events<'a> {
    ghost use Rattle.std.specs.Iterator.{YieldsFirstRef, item_count};
    ghost use Rattle.records.specs.Inside.Walking.{events_left};

    type Item = &'a [u8];

    ghost next_gives = { YieldsFirstRef events_left };

    ghost remaining = { item_count events_left };

    fn next(&mut self) -> Option<&'a [u8]> {
        if self.rest.is_empty() {
            return None;
        }
        let (event, rest) = split_first(self.rest, self.stock);
        self.rest = rest;
        Some(event)
    }
}

// The first event of a record that is taken, and what stands behind it.
fn split_first(bytes: &[u8], stock: StockField) -> (&[u8], &[u8])
    requires { (0 < length bytes.now) × (record_refusal stock bytes.now ≡ 0) }
    ensures first { cut_events stock bytes.now ≡ result.0.now ∷ cut_events stock result.1.now }
    ensures taken { record_refusal stock result.1.now ≡ 0 }
{
    bytes.split_at(event_length(bytes[1], stock))
}
