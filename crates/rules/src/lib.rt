// What a frame of each kind has to keep to, for the reader and the writer.
#![tactic(auto)]

ghost use Rattle.std.specs.Prelude.{◌≡◌, true, cond, ◌&&◌, ◌||◌, ◌/◌, eqb};
ghost use Rattle.frame.specs.Layout.{odd};
ghost use Rattle.frame.specs.Reasons.{map_fits, sense_fits};
ghost use Rattle.frame.specs.Writing.{all_between, lamp_fits, gateways_agree, well_formed, value_refusal};
ghost use Rattle.refusal.specs.Numbers.{number_in};

use frame::Frame;
use frame::tables::{HOUR, LAMP, SENSE, has_lamp, map_of_kind, sense_number, stands};
use model::{Kind, Message, kind_number};
use refusal::Refusal;

#[tactic(auto, unfolding(frame::specs::Writing::lamp_fits))]
// Whether a lamp's bytes are 33 to 126, or zero where the kind has no lamp.
pub fn lamp_fits(message: Message) -> bool
    ensures { result ≡ lamp_fits message }
{
    lamp_kept(message.lamp, has_lamp(kind_number(message.kind)))
}

// The same, told whether there is a lamp.
fn lamp_kept(lamp: [u8; 18], there: bool) -> bool
    ensures { result ≡ cond there (all_between 33 126 lamp) (all_between 0 0 lamp) }
{
    if there {
        all_between(lamp, 33, 126)
    } else {
        all_between(lamp, 0, 0)
    }
}

// Whether from, to and origin agree as the kind asks.
pub fn gateways_agree(from: u8, to: u8, kind: Kind) -> bool
    ensures { result ≡ gateways_agree from to kind }
{
    match kind {
        Kind::Failure { origin } => from == to && to == origin,
        Kind::Delivery { origin } => to == origin,
        Kind::Restock { .. } => from == to,
        Kind::Request { .. } | Kind::Start | Kind::Lvt | Kind::Update => true,
    }
}

// Looks at every byte and keeps whether all so far were between: an early return would be a branch for each byte.
pub fn all_between(lamp: [u8; 18], low: u8, high: u8) -> bool
    ensures { result ≡ all_between low high lamp }
{
    let mut fine = true;
    for byte in lamp {
        fine &= (low <= byte) & (byte <= high);
    }
    fine
}

#[tactic(auto, unfolding(frame::specs::Writing::well_formed, frame::specs::Writing::value_refusal, frame::specs::Writing::lamp_fits))]
// Whether a value is one of the forms of a frame.
pub fn well_formed(frame: Frame) -> bool
    ensures { result ≡ well_formed frame }
{
    value_refusal(frame).is_ok()
}

#[tactic(auto, unfolding(frame::specs::Writing::value_refusal, frame::specs::Writing::lamp_fits, frame::specs::Kinds::has_lamp, frame::specs::Kinds::has_hour))]
// What a value is refused with. Its kind's map is looked up once.
pub fn value_refusal(frame: Frame) -> Result<(), Refusal>
    ensures { number_in result ≡ value_refusal frame }
{
    let message = frame.message;
    let map = map_of_kind(kind_number(message.kind));
    if !header_fits(map, sense_number(frame.sense), message.hour) {
        return Err(Refusal::NoFrame);
    }
    let there = stands(LAMP, map);
    if !lamp_kept(message.lamp, there) {
        if there {
            return Err(Refusal::WrongLamp);
        }
        return Err(Refusal::NoFrame);
    }
    if !gateways_agree(message.from, message.to, message.kind) {
        return Err(Refusal::NoFrame);
    }
    Ok(())
}

// Whether a kind with that map may have that sense, which only one with a lamp has, and that hour.
fn header_fits(map: u8, sense: u8, hour: u32) -> bool
    ensures { result ≡ ((odd (map / 32) || eqb sense 0) && cond (odd (map / 8)) true (eqb hour 0)) }
{
    (stands(LAMP, map) || sense == 0) && (stands(HOUR, map) || hour == 0)
}

#[tactic(auto, unfolding(frame::specs::Reasons::map_fits, frame::specs::Kinds::has_lamp))]
// Whether the map is that of the kind, with bit 7 only for a kind with a lamp.
pub fn map_fits(map: u8, kind: u8) -> bool
    ensures { result ≡ map_fits map kind }
{
    let plain = map_of_kind(kind);
    kind < 7 && (map == plain || (stands(LAMP, plain) && map == plain + SENSE))
}

// Whether the sense is 1 to 3 where bit 7 stands.
pub fn sense_fits(map: u8, sense: u8) -> bool
    ensures { result ≡ sense_fits map sense }
{
    map < SENSE || matches!(sense, 1..=3)
}
