// Why a byte string is refused, in words: the number of a reason and the reason.
#![tactic(auto)]

ghost use Rattle.std.specs.Prelude.{◌≡◌, ◌+◌, ◌≤◌, length};
ghost use Rattle.buffer.specs.Slice.{Puts};
ghost use Rattle.reasons.specs.Words.{reason_text, refused_text, cut_text};

use buffer::copy;
use frame::forms::FormError;
use text::put_field;

// Puts the number of a reason and the reason in words, and answers the position behind them. Without a reason the number is 0.
pub fn put_refused(out: &mut [u8], at: usize, reason: Option<FormError>) -> usize
    requires { at + 61 ≤ length out.old }
    ensures { (Puts at (refused_text reason) out.old out.new result) × (result ≤ at + 61) }
{
    match reason {
        Some(reason) => {
            let behind_number = put_field(out, at, u32::from(reason.number()));
            put_words(out, behind_number, words_of(reason))
        }
        None => put_field(out, at, 0),
    }
}

// Puts what is said of an item that the input cuts.
pub fn put_cut(out: &mut [u8], at: usize) -> usize
    requires { at + 61 ≤ length out.old }
    ensures { (Puts at cut_text out.old out.new result) × (result ≤ at + 61) }
{
    let behind_number = put_field(out, at, u32::from(FormError::WrongLength.number()));
    put_words(
        out,
        behind_number,
        b"length: the input ends inside the item",
    )
}

#[tactic(auto, unfolding(text::specs::Letters::codes))]
// A reason in words.
fn words_of(reason: FormError) -> &'static [u8]
    ensures words { result.now ≡ reason_text reason }
    ensures short { length result.now ≤ 50 }
{
    match reason {
        FormError::TooShort => b"length: fewer than two bytes",
        FormError::WrongMap => b"map and kind: not in the table of kinds",
        FormError::WrongLength => b"length: not that of the map",
        FormError::WrongSense => b"sense: not 1 to 3",
        FormError::WrongLamp => b"lamp: a byte outside 33 to 126",
        FormError::WrongGateways => b"gateway fields: they do not agree",
        FormError::NotTaken => b"form: not taken in this call",
    }
}

// Words, as they are.
fn put_words(out: &mut [u8], at: usize, words: &[u8]) -> usize
    requires { at + length words.now ≤ length out.old }
    ensures { Puts at words.now out.old out.new result }
{
    copy(out, at, words);
    at + words.len()
}
