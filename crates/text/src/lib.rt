// Decimal text: numbers put as digits, and the number that a text spells.
// put_decimal asks its caller for the room; decimal_length says how much that is.
#![tactic(auto)]

ghost use Rattle.std.specs.Prelude.{◌≡◌, ◌≢◌, ◌+◌, ◌≤◌, get_or, length};
ghost use Rattle.buffer.specs.Slice.{Puts};
ghost use Rattle.text.specs.Decimal.{decimal, field, spelled};

// How many digits n has.
pub fn decimal_length(n: u32) -> usize
    ensures { (result ≡ length (decimal n)) × (1 ≤ result) × (result ≤ 10) }
{
    n.checked_ilog10().unwrap_or(0) as usize + 1
}

// Puts the digits of n from position at on, and answers the position behind them.
pub fn put_decimal(out: &mut [u8], at: usize, n: u32) -> usize
    requires { at + length (decimal n) ≤ length out.old }
    ensures { Puts at (decimal n) out.old out.new result }
{
    let last = if n < 10 {
        at
    } else {
        put_decimal(out, at, n / 10)
    };
    out[last] = b'0' + (n % 10) as u8;
    last + 1
}

// Puts a number and a blank, and answers the position behind them.
pub fn put_field(out: &mut [u8], at: usize, number: u32) -> usize
    requires { at + 11 ≤ length out.old }
    ensures { (Puts at (field number) out.old out.new result) × (result ≤ at + 11) }
{
    let end = put_decimal(out, at, number);
    out[end] = b' ';
    end + 1
}

// The number up to most that a text spells in decimal, without leading zeros and with nothing else in it.
pub fn spelled_number(text: &[u8], most: u32) -> Option<u32>
    ensures { result ≡ spelled most text.now }
{
    match text {
        [] => None,
        [b'0'] => Some(0),
        [b'0', ..] => None,
        digits => value_up_to(digits, most),
    }
}

// The value up to most of a text of digits.
fn value_up_to(text: &[u8], most: u32) -> Option<u32>
    requires { (1 ≤ length text.now) × (get_or text.now 0 0 ≢ 48) }
    ensures { result ≡ spelled most text.now }
{
    let mut value: u64 = 0;
    for &byte in text {
        let digit = match byte {
            b'0'..=b'9' => byte - b'0',
            _ => return None,
        };
        value = 10 * value + digit as u64;
        if value > most as u64 {
            return None;
        }
    }
    Some(value as u32)
}
