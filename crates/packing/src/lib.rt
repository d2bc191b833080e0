// How an answer of several numbers goes to programs in C and other languages: packed into one, or in an array of four.
#![tactic(auto)]

ghost use Rattle.std.specs.Prelude.{◌≡◌, ◌++◌, ◌<◌, ◌≤◌, get_or, length, drop};
ghost use Rattle.packing.specs.Packed as Packed;
ghost use Rattle.packing.specs.Packed.{number_at};
ghost use Rattle.routing.specs.AtMostTwo.{listed};

use routing::at_most_two::AtMostTwo;

// A number, the bytes written and a count in one number.
pub fn packed(number: u8, written: usize, count: u32) -> u64
    requires { written < 16777216 }
    ensures { result ≡ Packed.packed number written count }
{
    number as u64 + 256 * (written as u64) + 4294967296 * (count as u64)
}

// A number and the bytes written, which take all that is left, in one number.
pub fn packed_two(number: u8, written: usize) -> u64
    requires { written < 72057594037927936 }
    ensures { result ≡ Packed.packed_two number written }
{
    number as u64 + 256 * (written as u64)
}

// The gateway of that index, 65,535 where there is none.
pub fn number_at(among: AtMostTwo<u32>, i: usize) -> u16
    requires { get_or (listed among) i 0 < 65536 }
    ensures { result ≡ number_at among i }
{
    among.get(i).map_or(65535, |number| number as u16)
}

// Puts N values to the front of an array.
pub fn put_front<T: Copy, const N: usize>(array: &mut [T], values: [T; N])
    requires { N ≤ length array.old }
    ensures { array.new ≡ values ++ drop N array.old }
{
    array[..N].copy_from_slice(&values);
}
