// Undoing processed events, the latest first: each is pending again, the state is restored, and what it had sent stands in an
// outstanding place as a cancel. The cancels' frames are put out from there.
ghost use Rattle.rollback.specs.Inside.Undone.{CanUndo, Undoes, CanUndoPlace, UndoesPlace, CanUndoEntry, UndoesEntry};

use decoding::read_entry;
use doing::reply_to;
use effects::insert::unprocessed;
use effects::send::{header_sent, outstanding_at};
use encoding::{write_entry, write_sent};
use entries::{is_processed, site_of};
use memory::{Entry, HEADER_SIZE, Header, Mark, QUEUE_SIZE, Sent};

// Undoes the processed events in the queue places from place k on; gives the header after it.
pub fn undo(memory: &mut [u8], header: Header, k: usize) -> Header
    requires { CanUndo memory.old header k }
    ensures { Undoes memory.old memory.new header k result }
{
    let mut so_far = header;
    for left in (k..header.queued as usize).rev() {
        so_far = undo_place(memory, so_far, left);
    }
    so_far
}

// Undoes the event in queue place k, if it is processed.
fn undo_place(memory: &mut [u8], header: Header, k: usize) -> Header
    requires { CanUndoPlace memory.old header k }
    ensures { UndoesPlace memory.old memory.new header k result }
{
    let at = HEADER_SIZE + QUEUE_SIZE * k;
    let entry = read_entry(memory, at);
    if !is_processed(entry.mark) {
        return header;
    }
    write_entry(memory, at, unprocessed(entry.message, Mark::Pending));
    undo_entry(memory, header, entry)
}

// Restores the state before an event, if it is processed, and sends the cancel of what it had sent.
pub fn undo_entry(memory: &mut [u8], header: Header, entry: Entry) -> Header
    requires { CanUndoEntry memory.old header entry }
    ensures { UndoesEntry memory.old memory.new header entry result }
{
    if !is_processed(entry.mark) {
        return header;
    }
    let reply = reply_to(site_of(header.settings), entry.before, entry.message);
    let next = Header {
        state: entry.before,
        ..header
    };
    let Some(sent) = reply else {
        return next;
    };
    let cancel = Sent {
        message: sent,
        cancel: true,
    };
    write_sent(memory, outstanding_at(next), cancel);
    header_sent(next, sent.hour)
}
