// The opening list: frames one behind the other, each the part of the list that its map makes it.
#![tactic(auto)]

ghost use Rattle.std.specs.Prelude.{◌≡◌, [], ◌+◌, ◌≤◌, length};
ghost use Rattle.memory.specs.Layout.{header_size, queue_size, queue_at};
ghost use Rattle.lists.specs.Lists.{joined};
ghost use Rattle.buffer.specs.Slice.{write};
ghost use Rattle.memory.specs.Codec.{entry_bytes};
ghost use Rattle.refusal.specs.Numbers.{number_in};
ghost use Rattle.gateway.specs.SettingUp.{may_open, opening_refusal, queued};
ghost use Rattle.opening_list.specs.Inside.Frames.{frames_from, checked_as, checked_of, memory_entered};

use effects::insert::{insert_place, unprocessed};
use frame::forms::BLANK_FRAME;
use frame::pieces::frame_end;
use frame::{Frame, Sense};
use limits::check;
use memory::{Mark, Settings};
use model::{Kind, Message};
use places::search::place_for;
use reader::{read, read_where};
use refusal::Refusal;

// Why the opening list is turned down: the refusal of its first frame that is refused, and how many frames stand before it.
#[derive(Clone, Copy)]
pub struct FrameRefused {
    pub refusal: Refusal,
    pub before: usize,
}

impl From<FrameRefused> for Refusal {
    ghost from_gives = { λ found refusal. refusal ≡ found.refusal };

    fn from(found: FrameRefused) -> Refusal {
        found.refusal
    }
}

// Whether a frame is a plain message of kind 0 or 3.
fn may_open(frame: Frame) -> bool
    ensures { result ≡ may_open frame }
{
    matches!(frame.sense, Sense::Plain)
        && matches!(
            frame.message.kind,
            Kind::Failure { .. } | Kind::Restock { .. }
        )
}

// What a frame of the list is refused with.
fn opening_refusal(bytes: &[u8], settings: Settings) -> Result<(), Refusal>
    ensures { number_in result ≡ opening_refusal settings bytes.now }
{
    let frame = read_where(bytes, may_open)?;
    check(frame, settings.n as u16, settings.own, settings.last)
}

// One pass: the number of frames, or the first refusal and the number of frames before it.
pub fn check_list(list: &[u8], settings: Settings) -> Result<usize, FrameRefused>
    ensures { checked_of result ≡ checked_as settings (frames_from list.now 0) }
{
    let mut count = 0;
    let mut at = 0;
    while at < list.len() {
        let end = frame_end(list, at);
        if let Err(refusal) = opening_refusal(&list[at..end], settings) {
            return Err(FrameRefused {
                refusal,
                before: count,
            });
        }
        at = end;
        count += 1;
    }
    Ok(count)
}

// Puts each message of the list into its queue place, behind those that are not later. A blank frame stands for one that is none: there
// is none in a list that was checked.
pub fn enter_list(memory: &mut [u8], list: &[u8])
    requires { queue_at (length (frames_from list.now 0)) ≤ length memory.old }
    ensures { memory.new ≡ write header_size (joined entry_bytes (queued [] (frames_from list.now 0))) memory.old }
{
    let mut count = 0;
    let mut at = 0;
    while at < list.len() {
        let end = frame_end(list, at);
        let frame = read(&list[at..end]).unwrap_or(BLANK_FRAME);
        enter(memory, count, frame.message);
        at = end;
        count += 1;
    }
}

// Puts a message that is not processed into its queue place, behind those of so many that are not later.
fn enter(memory: &mut [u8], count: usize, message: Message)
    requires { queue_at count + queue_size ≤ length memory.old }
    ensures { memory.new ≡ memory_entered count message memory.old }
{
    let k = place_for(memory, count, message);
    insert_place(memory, count, k, unprocessed(message, Mark::Pending));
}
