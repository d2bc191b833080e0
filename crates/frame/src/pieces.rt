// Frames one behind the other.
ghost use Rattle.std.specs.Prelude.{◌≡◌, ◌<◌, length};
ghost use Rattle.lists.specs.Inside.Pieces.{piece_end};
ghost use Rattle.frame.specs.Layout.{whole_length};

use crate::tables::whole_length;

// The position behind the frame that begins at a position; the end of the bytes where it is cut short.
pub fn frame_end(bytes: &[u8], at: usize) -> usize
    requires { at < length bytes.now }
    ensures { result ≡ piece_end whole_length bytes.now at }
{
    let size = whole_length(bytes[at]);
    if bytes.len() - at < size {
        return bytes.len();
    }
    at + size
}
