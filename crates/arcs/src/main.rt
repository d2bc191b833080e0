// The program arcs: reads N from standard input, and prints its arcs.
#![tactic(auto)]

ghost use Rattle.std.specs.Prelude.{◌≡◌, ◌≤◌, length, IfOk};
ghost use Rattle.buffer.specs.Slice.{write};
ghost use Rattle.listing.specs.Output.{printed, rendering};

use std::io;
use std::io::Read;

// Reads until the buffer is full or the input ends, and answers how many bytes now stand at its front. Each read asks for all that is
// still wanted: of an input that comes as messages, a shorter read would lose the rest of one.
fn read_full(input: &mut impl Read, buf: &mut [u8]) -> io::Result<usize>
    ensures { IfOk result (λ count. count ≤ length buf.new) }
{
    let mut done = 0;
    while done < buf.len() {
        let count = input.read(&mut buf[done..])?;
        if count == 0 {
            break;
        }
        done += count;
    }
    Ok(done)
}

// Prints the listing of an input by way of out: the part of it that was put.
fn print(rt: &impl Print, input: &[u8], out: &mut [u8]) -> io::Result<()>
    ensures { out.new ≡ (rendering input.now out.old).out }
{
    match rendering::render(input, out) {
        Ok(length) => rt.write_all(&out[..length]),
        Err(_) => Ok(()),
    }
}

// The length of an array that is lent whole is known from its type alone, however long it is; and it holds every listing, so
// that nothing is left out.
fn print_by(rt: &impl Print, input: &[u8], out: &mut [u8; 1100000]) -> io::Result<()>
    ensures { out.new ≡ write 0 (printed input.now) out.old }
{
    print(rt, input, out)
}

// No input of more than six bytes gives an N, so sixteen bytes tell as much as all. 1,100,000 bytes hold every listing.
fn main(rt: HostRuntime) -> io::Result<()> {
    let mut input = [0u8; 16];
    let mut out = [0u8; 1100000];
    let count = read_full(&mut rt.stdin(), &mut input)?;
    print_by(&rt, &input[..count], &mut out)
}
