// The event order: two messages compared by hour, rank of the kind, origin, lamp, quantity, from and to.
#![tactic(auto)]

ghost use Rattle.std.specs.Prelude.{◌≡◌, [], ◌∷◌, ◌++◌};
ghost use Rattle.model.specs.Messages.{origin_of, quantity_of};
ghost use Rattle.model.specs.EventOrder.{rank, key, compared};

use model::{Kind, Message, origin_of, quantity_of};
use std::cmp::Ordering;

// The event order of two messages. The lamps are looked at only where what comes before them is equal, by a function of its own: a message
// that a closure takes is copied, and nearly every two messages differ in the hour.
pub fn compare(a: Message, b: Message) -> Ordering
    ensures { result ≡ compared (key a) (key b) }
{
    let first = before_lamp(a, b);
    if first.is_ne() {
        return first;
    }
    from_lamp(a, b)
}

// By hour, rank and origin.
fn before_lamp(a: Message, b: Message) -> Ordering
    ensures { result ≡ compared
        (a.hour ∷ rank a.kind ∷ origin_of a.kind ∷ [])
        (b.hour ∷ rank b.kind ∷ origin_of b.kind ∷ []) }
{
    let hours = a.hour.cmp(&b.hour);
    if hours.is_ne() {
        return hours;
    }
    rank(a.kind)
        .cmp(&rank(b.kind))
        .then(origin_of(a.kind).cmp(&origin_of(b.kind)))
}

// The kind's rank within an hour.
fn rank(kind: Kind) -> u8
    ensures { result ≡ rank kind }
{
    match kind {
        Kind::Failure { .. } => 0,
        Kind::Restock { .. } => 1,
        Kind::Request { .. } => 2,
        Kind::Delivery { .. } => 3,
        Kind::Start => 4,
        Kind::Lvt => 5,
        Kind::Update => 6,
    }
}

// By lamp, quantity, from and to.
fn from_lamp(a: Message, b: Message) -> Ordering
    ensures { result ≡ compared
        (a.lamp ++ (quantity_of a.kind ∷ a.from ∷ a.to ∷ []))
        (b.lamp ++ (quantity_of b.kind ∷ b.from ∷ b.to ∷ [])) }
{
    a.lamp.cmp(&b.lamp).then_with(|| after_lamp(a, b))
}

// By quantity, from and to.
fn after_lamp(a: Message, b: Message) -> Ordering
    ensures { result ≡ compared (quantity_of a.kind ∷ a.from ∷ a.to ∷ []) (quantity_of b.kind ∷ b.from ∷ b.to ∷ []) }
{
    quantity_of(a.kind)
        .cmp(&quantity_of(b.kind))
        .then(a.from.cmp(&b.from))
        .then(a.to.cmp(&b.to))
}
