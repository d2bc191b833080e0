// The call take: a byte string that is no frame, or no frame for this gateway, is refused; the others go by sense and kind.
#![tactic(auto)]

ghost use Rattle.std.specs.Prelude.{◌≡◌, true};
ghost use Rattle.memory.specs.Inside.Fits.{MessageFits};
ghost use Rattle.frame.specs.Writing.{well_formed};
ghost use Rattle.gateway.specs.Answers.{answer_of};
ghost use Rattle.gateway.specs.Calls.{left, by_carrier, take_by_kind, take_for, take_frame, take_bytes, taken};
ghost use Rattle.gateway.specs.Inside.Premises.{Known, Leaves};

use frame::{Frame, Sense};
use limits::check;
use memory::Header;
use model::{Kind, Message};
use reader::read_where;
use refusal::Refusal;
use soundness::checked;
use take_acknowledgment::take_acknowledgment;
use take_cancel::take_cancel;
use take_lvt::take_timely_lvt;
use take_plain::take_plain;
use take_start::take_start;
use take_update::take_update;

pub fn take(memory: &mut [u8], frame: &[u8], output: &mut [u8]) -> Result<usize, Refusal>
    ensures { left (answer_of result) memory.new output.new ≡ taken memory.old frame.now output.old }
{
    let header = checked(memory)?;
    take_bytes(memory, frame, output, header)
}

// A byte string that is no frame, or one that this call does not take, is refused with the number of its form.
fn take_bytes(
    memory: &mut [u8],
    frame: &[u8],
    output: &mut [u8],
    header: Header,
) -> Result<usize, Refusal>
    requires { Known memory.old header }
    ensures { Leaves result memory output (take_bytes frame.now) }
{
    let frame = read_where(frame, by_carrier)?;
    take_checked(memory, output, header, frame)
}

// Whether the carrier brings such frames. A Restock is for opening lists alone.
fn by_carrier(frame: Frame) -> bool
    ensures { result ≡ by_carrier frame }
{
    !matches!(frame.message.kind, Kind::Restock { .. })
}

// Numbers and hour are looked at before the rest: 2, then 3.
fn take_checked(
    memory: &mut [u8],
    output: &mut [u8],
    header: Header,
    frame: Frame,
) -> Result<usize, Refusal>
    requires { Known memory.old header × MessageFits frame.message × (well_formed frame ≡ true) }
    ensures { Leaves result memory output (take_for header.settings frame) }
{
    let settings = header.settings;
    check(frame, settings.n as u16, settings.own, settings.last)?;
    take_frame(memory, output, header, frame)
}

fn take_frame(
    memory: &mut [u8],
    output: &mut [u8],
    header: Header,
    frame: Frame,
) -> Result<usize, Refusal>
    requires { Known memory.old header × MessageFits frame.message × (well_formed frame ≡ true) }
    ensures { Leaves result memory output (λ room g. take_frame room frame g) }
{
    let message = frame.message;
    match frame.sense {
        Sense::Plain => take_by_kind(memory, output, header, message),
        Sense::Cancel => take_cancel(memory, output, header, message),
        Sense::Acknowledgment => take_acknowledgment(memory, header, false, message),
        Sense::CancelAcknowledgment => take_acknowledgment(memory, header, true, message),
    }
}

// An event, or a message of the round. A Restock is not taken.
fn take_by_kind(
    memory: &mut [u8],
    output: &mut [u8],
    header: Header,
    message: Message,
) -> Result<usize, Refusal>
    requires { Known memory.old header × MessageFits message }
    ensures { Leaves result memory output (λ room g. take_by_kind room message g message.kind) }
{
    match message.kind {
        Kind::Failure { .. } | Kind::Request { .. } | Kind::Delivery { .. } => {
            take_plain(memory, output, header, message)
        }
        Kind::Restock { .. } => Err(Refusal::NoFrame),
        Kind::Start => take_start(memory, output, header, message.from),
        Kind::Lvt => take_timely_lvt(memory, output, header, message),
        Kind::Update => take_update(memory, output, header, message.from, message.hour),
    }
}
