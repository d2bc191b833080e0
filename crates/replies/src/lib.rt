// What an event sends: whether there is room for it, and sending it.
#![tactic(auto)]

ghost use Rattle.std.specs.Prelude.{◌≡◌, ◌≤◌, Some, IfSome};
ghost use Rattle.model.specs.Messages.{kind_number};
ghost use Rattle.replies.specs.Inside.Turns.{reply_bytes, room_for, MaySendReply, SendsReply};

use effects::send::{header_sent, outstanding_at};
use encoding::write_sent;
use frame::lamps::PLAIN_LENGTH;
use memory::{Header, Sent};
use model::Message;
use refusal::Refusal;

// Where work stands between two events: the header so far, which is written last, the bytes of output that the replies so far take,
// the place from which on the next unprocessed plain message stands, and why work stops, where it does.
#[derive(Clone, Copy)]
pub struct Turn {
    pub header: Header,
    pub written: usize,
    pub place: usize,
    pub why: Option<Refusal>,
}

// How many bytes of output what doing a message sends takes: nothing, or a plain message with a lamp.
pub fn reply_bytes(reply: Option<Message>) -> usize
    requires { IfSome reply (λ message. kind_number message.kind ≤ 2) }
    ensures { result ≡ reply_bytes reply }
{
    match reply {
        Some(message) => message_bytes(message),
        None => 0,
    }
}

// How many bytes of output a message with a lamp takes: as many as any other.
fn message_bytes(_message: Message) -> usize
    requires { kind_number _message.kind ≤ 2 }
    ensures { result ≡ reply_bytes (Some _message) }
{
    PLAIN_LENGTH
}

// Whether there are outstanding places and bytes of output for what doing a message sends.
pub fn has_room(header: Header, reply: Option<Message>, bytes: usize, room: usize) -> bool
    requires { (header.outstanding ≤ header.settings.u) × (bytes ≡ reply_bytes reply) }
    ensures { result ≡ room_for header room reply }
{
    reply.is_none() || header.outstanding < header.settings.u && bytes <= room
}

// Sends what doing a message sends: it stands in an outstanding place. Gives the header after it.
pub fn send_reply(memory: &mut [u8], header: Header, reply: Option<Message>) -> Header
    requires { MaySendReply memory.old header reply }
    ensures { SendsReply memory.old memory.new header reply result }
{
    let Some(message) = reply else {
        return header;
    };
    let sent = Sent {
        message,
        cancel: false,
    };
    write_sent(memory, outstanding_at(header), sent);
    header_sent(header, message.hour)
}
