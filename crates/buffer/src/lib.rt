// Bytes and numbers in a lent slice: what the frames and a gateway's memory are read and written with.
// Every function here asks its caller for the room; the calls that a host makes check it first.
#![tactic(auto)]

ghost use Rattle.std.specs.Prelude.{◌≡◌, ◌+◌, ◌*◌, ◌≤◌, ℕ, length};
ghost use Rattle.std.specs.List.{flat_map};
ghost use Rattle.buffer.specs.Slice.{part, write};
ghost use Rattle.buffer.specs.Number.{bytes_of, number_of};

// A number that stands in a slice high byte first.
pub trait Number: Copy {
    ghost value: { Self → ℕ };

    // The bytes that it takes.
    const WIDTH: usize;

    ghost WIDTH: { ℕ };

    // The number in the bytes from position at on.
    fn read(bytes: &[u8], at: usize) -> Self
        requires { at + WIDTH ≤ length bytes.now }
        ensures { value result ≡ number_of (part bytes.now at WIDTH) };

    // Puts the number into the bytes from position at on.
    fn write(self, bytes: &mut [u8], at: usize)
        requires { at + WIDTH ≤ length bytes.old }
        ensures { bytes.new ≡ write at (bytes_of WIDTH (value self)) bytes.old };
}

impl Number for u8 {
    ghost value = { λ n. n };

    const WIDTH: usize = 1;

    ghost WIDTH = { 1 };

    fn read(bytes: &[u8], at: usize) -> u8 {
        bytes[at]
    }

    fn write(self, bytes: &mut [u8], at: usize) {
        bytes[at] = self;
    }
}

impl Number for u16 {
    ghost value = { λ n. n };

    const WIDTH: usize = 2;

    ghost WIDTH = { 2 };

    fn read(bytes: &[u8], at: usize) -> u16 {
        u16::from_be_bytes(array_at(bytes, at))
    }

    fn write(self, bytes: &mut [u8], at: usize) {
        copy(bytes, at, &self.to_be_bytes());
    }
}

impl Number for u32 {
    ghost value = { λ n. n };

    const WIDTH: usize = 4;

    ghost WIDTH = { 4 };

    fn read(bytes: &[u8], at: usize) -> u32 {
        u32::from_be_bytes(array_at(bytes, at))
    }

    fn write(self, bytes: &mut [u8], at: usize) {
        copy(bytes, at, &self.to_be_bytes());
    }
}

// Puts numbers one behind the other, from position at on.
pub fn write_all<T: Number>(bytes: &mut [u8], at: usize, numbers: &[T])
    requires { at + T.WIDTH * length numbers.now ≤ length bytes.old }
    ensures { bytes.new ≡ write at (flat_map (λ n. bytes_of T.WIDTH (T.value n)) numbers.now) bytes.old }
{
    for (i, &number) in numbers.iter().enumerate() {
        number.write(bytes, at + T::WIDTH * i);
    }
}

// The N bytes from position at on.
pub fn array_at<const N: usize>(bytes: &[u8], at: usize) -> [u8; N]
    requires { at + N ≤ length bytes.now }
    ensures { result ≡ part bytes.now at N }
{
    bytes[at..at + N].try_into().unwrap()
}

// Copies all of source into bytes, from position at on.
pub fn copy(bytes: &mut [u8], at: usize, source: &[u8])
    requires { at + length source.now ≤ length bytes.old }
    ensures { bytes.new ≡ write at source.now bytes.old }
{
    bytes[at..at + source.len()].copy_from_slice(source);
}

// Moves count bytes from one position to another.
pub fn move_within(bytes: &mut [u8], from: usize, at: usize, count: usize)
    requires { (from + count ≤ length bytes.old) × (at + count ≤ length bytes.old) }
    ensures { bytes.new ≡ write at (part bytes.old from count) bytes.old }
{
    bytes.copy_within(from..from + count, at);
}
