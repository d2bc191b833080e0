// The whole output of arcs for an input: the number that it spells, its listing, or 8; 5 where there is too little room.
#![tactic(auto)]

ghost use Rattle.std.specs.Prelude.{◌≡◌, ◌≤◌, IfSome, unwrap_or};
ghost use Rattle.listing.specs.Output.{listing, without_end, number_in, rendered, rendering};

use listing::{arcs_length, first_length, put_listing};
use neighbours::middles::Middles;
use refusal::Refusal;

// The text before the line end that may stand last.
fn without_end(input: &[u8]) -> &[u8]
    ensures { result.now ≡ without_end input.now }
{
    match input {
        [front @ .., b'\n'] => front,
        _ => input,
    }
}

// N as the input gives it, from 1.
fn number_in(input: &[u8]) -> Option<u32>
    ensures number { unwrap_or result 0 ≡ number_in input.now }
    ensures range { IfSome result (λ n. (1 ≤ n) × (n ≤ 65535)) }
{
    match text::spelled_number(without_end(input), 65535) {
        Some(n) if n > 0 => Some(n),
        _ => None,
    }
}

fn render_refusal(out: &mut [u8]) -> Result<usize, Refusal>
    ensures { record { answer = result; out = out.new } ≡ rendered (listing 0) out.old }
{
    if out.len() < 2 {
        return Err(Refusal::NoRoom);
    }
    out[0] = b'8';
    out[1] = b'\n';
    Ok(2)
}

fn render_listing(out: &mut [u8], n: u32) -> Result<usize, Refusal>
    requires { (1 ≤ n) × (n ≤ 65535) }
    ensures { record { answer = result; out = out.new } ≡ rendered (listing n) out.old }
{
    let middles = Middles::new(n);
    let totals = middles.totals();
    let length = first_length(n, totals) + arcs_length(middles);
    if out.len() < length {
        return Err(Refusal::NoRoom);
    }
    put_listing(out, middles, totals);
    Ok(length)
}

// Puts all that the program prints for an input at the front of the output, and answers how many bytes these are.
pub fn render(input: &[u8], out: &mut [u8]) -> Result<usize, Refusal>
    ensures { record { answer = result; out = out.new } ≡ rendering input.now out.old }
{
    match number_in(input) {
        Some(n) => render_listing(out, n),
        None => render_refusal(out),
    }
}
