// The program frames: reads byte strings from standard input, each a length byte and then so many bytes, and prints a line
// for each: the fields of the frame that it is, or the number with which it is refused and why. An item that the input cuts is refused with 11.
#![tactic(auto)]

ghost use Rattle.std.specs.Prelude.{◌≤◌, length, IfOk, IfSome};
ghost use Rattle.frames.specs.Inside.Items.{bytes_of};

use arrayvec::ArrayVec;
use std::io;
use std::io::{ErrorKind, Read, Write};

// One item of the input: its bytes, or that the input ends inside it.
#[derive(Clone, Copy)]
enum Item<'a> {
    Whole(&'a [u8]),
    Cut,
}

// Lines are printed many at a time: whenever little room is left for the next one, and at the end.
fn main(rt: HostRuntime) -> io::Result<()> {
    let mut input = rt.stdin();
    let mut output = ArrayVec::<u8, 65536>::new();
    let mut buffer = [0u8; 255];
    for _ in 0..u32::MAX {
        match next_item(&mut input, &mut buffer)? {
            Some(item) => print_item(&mut output, item)?,
            None => break,
        }
        if output.len() > 65000 {
            rt.write_all(&output)?;
            output.clear();
        }
    }
    rt.write_all(&output)
}

// The next item of the input, if there is one.
fn next_item<'a>(input: &mut impl Read, buffer: &'a mut [u8; 255]) -> io::Result<Option<Item<'a>>>
    ensures { IfOk result (λ next. IfSome next (λ item. length (bytes_of item) ≤ 255)) }
{
    let mut size = [0u8; 1];
    if input.read(&mut size)? == 0 {
        return Ok(None);
    }
    let bytes = &mut buffer[..usize::from(size[0])];
    match input.read_exact(bytes) {
        Ok(()) => Ok(Some(Item::Whole(bytes))),
        Err(error) if error.kind() == ErrorKind::UnexpectedEof => Ok(Some(Item::Cut)),
        Err(error) => Err(error),
    }
}

// Prints the line of an item.
fn print_item(output: &mut impl Write, item: Item) -> io::Result<()> {
    let mut line = [0u8; 128];
    let end = match item {
        Item::Whole(bytes) => report::put_line(&mut line, 0, bytes),
        Item::Cut => reasons::put_cut(&mut line, 0),
    };
    output.write_all(&line[..end])?;
    if is_written_differently(item) {
        output.write_all(b" differs")?;
    }
    output.write_all(b"\n")
}

// Whether an item has other bytes once it is written again.
fn is_written_differently(item: Item) -> bool {
    match item {
        Item::Whole(bytes) => report::differs(bytes),
        Item::Cut => false,
    }
}
