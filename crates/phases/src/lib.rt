// The round in a gateway's header: its phase, its arrivals and its note. What the steps of a round look at and put there.
#![tactic(auto)]

ghost use Rattle.std.specs.Prelude.{◌≡◌, not, ◌&&◌, leb};
ghost use Rattle.gateway.specs.Rounds.{idle, is_idle, stands};
ghost use Rattle.gateway.specs.Inside.Premises.{changed_to};

use memory::{Header, Phase, Round};

// The header with another agreed time and round.
pub fn changed(header: Header, agreed: u32, round: Round) -> Header
    ensures { result ≡ changed_to header agreed round }
{
    Header {
        agreed,
        round,
        ..header
    }
}

// The round of a gateway that has finished its part, or has not begun.
pub fn no_round() -> Round
    ensures { result ≡ idle }
{
    Round {
        phase: Phase::Idle,
        arrived: 0,
        note: 0,
    }
}

// The round of a gateway that has begun: what it sends lowers the note.
pub fn counting(note: u32) -> Round
    ensures { result ≡ record { phase = Phase.Counting; arrived = 0; note = note } }
{
    Round {
        phase: Phase::Counting,
        arrived: 0,
        note,
    }
}

// The round of a gateway that still waits for a Start.
pub fn waiting(arrived: u8, note: u32) -> Round
    ensures { result ≡ record { phase = Phase.Idle; arrived = arrived; note = note } }
{
    Round {
        phase: Phase::Idle,
        arrived,
        note,
    }
}

// The round of a gateway that has stopped its note and waits for an Lvt.
pub fn stopped(arrived: u8, value: u32) -> Round
    ensures { result ≡ record { phase = Phase.Stopped; arrived = arrived; note = value } }
{
    Round {
        phase: Phase::Stopped,
        arrived,
        note: value,
    }
}

// Whether a gateway has not begun, or has finished.
pub fn is_idle(phase: Phase) -> bool
    ensures { result ≡ is_idle phase }
{
    phase == Phase::Idle
}

// Whether a bit stands for a gateway, and has not yet arrived.
pub fn awaited(bit: u8, arrived: u8) -> bool
    ensures { result ≡ (leb 1 bit && not (stands bit arrived)) }
{
    bit != 0 && arrived / bit % 2 != 1
}
