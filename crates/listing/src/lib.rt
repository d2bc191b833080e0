// The listing of the arcs, as the program arcs prints it: counted first, and then put whole into the lent output.
#![tactic(auto)]

ghost use Rattle.std.specs.Prelude.{◌≡◌, ◌++◌, ◌+◌, ◌*◌, ◌≤◌, length};
ghost use Rattle.lists.specs.Lists.{joined};
ghost use Rattle.buffer.specs.Slice.{write, Puts};
ghost use Rattle.text.specs.Decimal.{decimal};
ghost use Rattle.routing.specs.Arcs.{arcs};
ghost use Rattle.routing.specs.AtMostTwo.{listed};
ghost use Rattle.listing.specs.Output.{first_line, arc_line, lines_from};

use neighbours::middles::Middles;
use routing::Totals;
use routing::at_most_two::AtMostTwo;

// How many bytes the first line takes.
pub fn first_length(n: u32, totals: Totals) -> usize
    ensures { (result ≡ length (first_line n totals.arcs totals.messages)) × (result ≤ 50) }
{
    20 + text::decimal_length(n)
        + text::decimal_length(totals.arcs)
        + text::decimal_length(totals.messages)
}

// How many bytes the line of an arc takes.
fn line_length(from: u32, to: u32) -> usize
    ensures { (result ≡ length (arc_line (from, to))) × (result ≤ 22) }
{
    text::decimal_length(from) + text::decimal_length(to) + 2
}

// How many bytes the lines of the arcs from one gateway take.
fn lines_length(own: u32, to: AtMostTwo<u32>) -> usize
    ensures { (result ≡ length (lines_from own (listed to))) × (result ≤ 44) }
{
    match to {
        AtMostTwo::None => 0,
        AtMostTwo::One(first) => line_length(own, first),
        AtMostTwo::Two(first, second) => line_length(own, first) + line_length(own, second),
    }
}

// How many bytes the lines of all arcs take.
pub fn arcs_length(middles: Middles) -> usize
    ensures { (result ≡ length (joined arc_line (arcs middles.n))) × (result ≤ 44 * middles.n) }
{
    let mut total: usize = 0;
    for own in 0..middles.n {
        total += lines_length(own, middles.to_of(own));
    }
    total
}

// Puts a word and a number from position at on, and answers the position behind them.
fn put_field(out: &mut [u8], at: usize, word: &[u8], n: u32) -> usize
    requires { at + length word.now + length (decimal n) ≤ length out.old }
    ensures { Puts at (word.now ++ decimal n) out.old out.new result }
{
    buffer::copy(out, at, word);
    text::put_decimal(out, at + word.len(), n)
}

// Puts the first line, and answers its length.
fn put_first_line(out: &mut [u8], n: u32, totals: Totals) -> usize
    requires { length (first_line n totals.arcs totals.messages) ≤ length out.old }
    ensures { Puts 0 (first_line n totals.arcs totals.messages) out.old out.new result }
{
    let nodes_end = put_field(out, 0, b"nodes ", n);
    let arcs_end = put_field(out, nodes_end, b" arcs ", totals.arcs);
    let end = put_field(out, arcs_end, b" round ", totals.messages);
    out[end] = b'\n';
    end + 1
}

// Puts the line of an arc from position at on, and answers the position behind it.
fn put_arc(out: &mut [u8], at: usize, from: u32, to: u32) -> usize
    requires { at + length (arc_line (from, to)) ≤ length out.old }
    ensures { Puts at (arc_line (from, to)) out.old out.new result }
{
    let middle = text::put_decimal(out, at, from);
    out[middle] = b' ';
    let end = text::put_decimal(out, middle + 1, to);
    out[end] = b'\n';
    end + 1
}

// Puts the lines of the arcs from one gateway from position at on, and answers the position behind them.
fn put_lines(out: &mut [u8], at: usize, own: u32, to: AtMostTwo<u32>) -> usize
    requires { at + length (lines_from own (listed to)) ≤ length out.old }
    ensures { Puts at (lines_from own (listed to)) out.old out.new result }
{
    match to {
        AtMostTwo::None => at,
        AtMostTwo::One(first) => put_arc(out, at, own, first),
        AtMostTwo::Two(first, second) => {
            let next = put_arc(out, at, own, first);
            put_arc(out, next, own, second)
        }
    }
}

// Puts the lines of all arcs from position at on.
fn put_arcs(out: &mut [u8], at: usize, middles: Middles)
    requires { at + length (joined arc_line (arcs middles.n)) ≤ length out.old }
    ensures { out.new ≡ write at (joined arc_line (arcs middles.n)) out.old }
{
    let mut next = at;
    for own in 0..middles.n {
        next = put_lines(out, next, own, middles.to_of(own));
    }
}

// Puts the first line and the lines of all arcs.
pub fn put_listing(out: &mut [u8], middles: Middles, totals: Totals)
    requires { length (first_line middles.n totals.arcs totals.messages) + length (joined arc_line (arcs middles.n)) ≤ length out.old }
    ensures { out.new ≡ write 0 (first_line middles.n totals.arcs totals.messages ++ joined arc_line (arcs middles.n)) out.old }
{
    let next = put_first_line(out, middles.n, totals);
    put_arcs(out, next, middles);
}
