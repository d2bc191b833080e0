// The lamp of a frame: the part that holds it, or why there is none.
#![tactic(auto)]

ghost use Rattle.std.specs.Prelude.{◌≡◌, Err, MatchResult};
ghost use Rattle.frame.specs.Reasons.{reading, form_number};
ghost use Rattle.frame.specs.Lamps.{with_lamp, lamp_form, IsLamp, lamp_refusal};

use frame::Frame;
use frame::forms::FormError;
use frame::lamps::{LAMP_END, LAMP_PLACE};
use frame::tables::has_lamp;
use model::kind_number;
use reader::read_where;

// The eighteen bytes of a frame's lamp, as the part of the frame that holds them. The part is empty where there is no lamp to read.
pub fn lamp(frame: &[u8]) -> &[u8]
    ensures { IsLamp frame.entry result }
{
    match lamp_or_reason(frame) {
        Ok(part) => part,
        Err(_) => &frame[0..0],
    }
}

// The same part, or the first reason why there is none: the last is that the frame has no lamp.
pub fn lamp_or_reason(frame: &[u8]) -> Result<&[u8], FormError>
    ensures { MatchResult result (λ part. IsLamp frame.entry part × (lamp_refusal frame.now ≡ 0))
        (λ reason. lamp_form (reading frame.now) ≡ Err reason) }
{
    read_where(frame, with_lamp)?;
    Ok(&frame[LAMP_PLACE..LAMP_END])
}

// Whether a frame's kind has a lamp.
fn with_lamp(frame: Frame) -> bool
    ensures { result ≡ with_lamp frame }
{
    has_lamp(kind_number(frame.message.kind))
}
