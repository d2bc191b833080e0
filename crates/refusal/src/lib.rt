// Why a call turns down what it is given: document 01's numbers, and document 02's 11 and 12, as one type.
#![tactic(auto)]

ghost use Rattle.std.specs.Prelude.{◌≡◌};
ghost use Rattle.refusal.specs.Numbers.{refusal_number};

#[derive(Clone, Copy, PartialEq, Eq)]
pub enum Refusal {
    NoFrame,
    WrongGateway,
    PastLastHour,
    OutOfTurn,
    NoRoom,
    NothingToDo,
    NotOutstanding,
    OutOfRange,
    BelowAgreedTime,
    NotSound,
    WrongLength,
    WrongLamp,
}

impl Refusal {
    // The number that the documents give it.
    pub fn number(self) -> u8
        ensures { result ≡ refusal_number self }
    {
        match self {
            Refusal::NoFrame => 1,
            Refusal::WrongGateway => 2,
            Refusal::PastLastHour => 3,
            Refusal::OutOfTurn => 4,
            Refusal::NoRoom => 5,
            Refusal::NothingToDo => 6,
            Refusal::NotOutstanding => 7,
            Refusal::OutOfRange => 8,
            Refusal::BelowAgreedTime => 9,
            Refusal::NotSound => 10,
            Refusal::WrongLength => 11,
            Refusal::WrongLamp => 12,
        }
    }
}
