// The reasons for which a byte string is refused, and the number of each.
ghost use Rattle.std.specs.Prelude.{◌≡◌};
ghost use Rattle.refusal.specs.Numbers.{refusal_number};
ghost use Rattle.frame.specs.Reasons.{form_number};

use crate::{Frame, Sense};
use model::{Kind, Message};
use refusal::Refusal;

// Why a byte string is no frame that a call takes. Reading knows of no call: the last reason is the call's.
#[derive(Clone, Copy, PartialEq, Eq)]
pub enum FormError {
    TooShort,
    WrongMap,
    WrongLength,
    WrongSense,
    WrongLamp,
    WrongGateways,
    NotTaken,
}

impl FormError {
    // The number with which a call refuses for that reason.
    pub fn number(self) -> u8
        ensures { result ≡ form_number self }
    {
        Refusal::from(self).number()
    }
}

impl From<FormError> for Refusal {
    ghost from_gives = { λ reason refusal. refusal_number refusal ≡ form_number reason };

    fn from(reason: FormError) -> Refusal {
        match reason {
            FormError::TooShort | FormError::WrongLength => Refusal::WrongLength,
            FormError::WrongLamp => Refusal::WrongLamp,
            _ => Refusal::NoFrame,
        }
    }
}

// What stands for the frame of a byte string that is refused.
pub const BLANK_FRAME: Frame = Frame {
    message: Message {
        hour: 0,
        from: 0,
        to: 0,
        kind: Kind::Start,
        lamp: [0; 18],
    },
    sense: Sense::Plain,
};
