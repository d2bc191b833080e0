// Whether there is room for all that a call would do, looked at before its first store, and entering a queue place.
ghost use Rattle.std.specs.Prelude.{◌≡◌, [], ◌∷◌, ◌-◌, ◌≤◌, length};
ghost use Rattle.model.specs.Doing.{sent_by};
ghost use Rattle.memory.specs.Layout.{queue_at};
ghost use Rattle.memory.specs.Records.{site_of};
ghost use Rattle.gateway.specs.Undoing.{processed_of, sent_back};
ghost use Rattle.gateway.specs.Taking.{acknowledgment};
ghost use Rattle.places.specs.Inside.Searching.{entries_from};
ghost use Rattle.rollback.specs.Inside.Entering.{CanEnter, Enters, enough};

use decoding::read_entry;
use doing::reply_to;
use effects::insert::insert_place;
use entries::{is_processed, site_of};
use frame::lamps::SENSE_LENGTH;
use frame::{Frame, Sense};
use header::write_header;
use memory::{Entry, HEADER_SIZE, Header, QUEUE_SIZE};
use model::Message;

// The acknowledgment of a message, or of a cancel.
pub fn acknowledgment(cancel: bool, message: Message) -> Frame
    ensures { result ≡ acknowledgment cancel message }
{
    Frame {
        message,
        sense: if cancel {
            Sense::CancelAcknowledgment
        } else {
            Sense::Acknowledgment
        },
    }
}

// Whether there is room for so many used queue places, so many more outstanding ones, and the acknowledgment and the cancels that stand
// in those: each is a frame with a sense.
pub fn has_room(header: Header, queued: usize, sent: usize, room: usize) -> bool
    requires { sent ≤ 65535 }
    ensures { result ≡ enough header queued sent room }
{
    queued <= header.settings.q as usize
        && header.outstanding as usize + sent <= header.settings.u as usize
        && SENSE_LENGTH * (sent + 1) <= room
}

// How many messages the processed events from queue place k on had sent.
pub fn count_sent(memory: &[u8], header: Header, k: usize) -> usize
    requires { (k ≤ header.queued) × (queue_at header.queued ≤ length memory.now) }
    ensures { (result ≡ length (sent_back (site_of header.settings) (processed_of (entries_from memory.now k header.queued))))
        × (result ≤ header.queued - k) }
{
    let mut sent = 0;
    for i in k..header.queued as usize {
        let entry = read_entry(memory, HEADER_SIZE + QUEUE_SIZE * i);
        sent += usize::from(sent_by(header, entry).is_some());
    }
    sent
}

// What the entry's event had sent, if it is processed and had sent a message.
fn sent_by(header: Header, entry: Entry) -> Option<Message>
    ensures { sent_by result ≡ sent_back (site_of header.settings) (processed_of (entry ∷ [])) }
{
    if is_processed(entry.mark) {
        reply_to(site_of(header.settings), entry.before, entry.message)
    } else {
        None
    }
}

// Puts an entry into queue place k, and the header last.
pub fn enter(memory: &mut [u8], header: Header, k: usize, entry: Entry)
    requires { CanEnter memory.old header k entry }
    ensures { Enters memory.old memory.new header k entry }
{
    insert_place(memory, header.queued as usize, k, entry);
    let next = Header {
        queued: header.queued + 1,
        ..header
    };
    write_header(memory, next);
}
