// Which frames a gateway turns down for their numbers (2) and their hour (3).
#![tactic(auto)]

ghost use Rattle.std.specs.Prelude.{◌≡◌};
ghost use Rattle.frame.specs.Limits.{refusal, refusal_where, numbers_below, addressee, hour_allowed};
ghost use Rattle.refusal.specs.Numbers.{number_in};

use frame::{Frame, Sense};
use model::{Kind, Message, origin_of};
use refusal::Refusal;

// The hour that means nothing due.
const NOTHING_DUE: u32 = 4294967295;

#[tactic(auto, unfolding(frame::specs::Limits::refusal))]
// What the gateway own of n turns the frame down with.
pub fn check(frame: Frame, n: u16, own: u8, last: u32) -> Result<(), Refusal>
    ensures { number_in result ≡ refusal frame n own last }
{
    let here = addressed_to(frame.sense, frame.message) == own;
    check_where(here, frame, n, last)
}

#[tactic(auto, unfolding(frame::specs::Limits::refusal_where))]
// The same, told whether the frame is addressed here.
pub fn check_where(here: bool, frame: Frame, n: u16, last: u32) -> Result<(), Refusal>
    ensures { number_in result ≡ refusal_where here frame n last }
{
    if !(numbers_below(n, frame.message) && here) {
        return Err(Refusal::WrongGateway);
    }
    if !hour_allowed(last, frame.message) {
        return Err(Refusal::PastLastHour);
    }
    Ok(())
}

// An acknowledgment is addressed to from, every other frame to to.
pub fn addressed_to(sense: Sense, message: Message) -> u8
    ensures { result ≡ addressee sense message }
{
    match sense {
        Sense::Plain | Sense::Cancel => message.to,
        Sense::Acknowledgment | Sense::CancelAcknowledgment => message.from,
    }
}

pub fn numbers_below(n: u16, message: Message) -> bool
    ensures { result ≡ numbers_below n message }
{
    u16::from(message.from) < n
        && u16::from(message.to) < n
        && u16::from(origin_of(message.kind)) < n
}

// Nothing due is allowed in Lvt and Update alone.
fn hour_allowed(last: u32, message: Message) -> bool
    ensures { result ≡ hour_allowed last message }
{
    message.hour <= last
        || (matches!(message.kind, Kind::Lvt | Kind::Update) && message.hour == NOTHING_DUE)
}
