// The calls for programs in C and other languages. Each promises what the call below it promises; an answer of several numbers
// comes packed into one. include/hurfaith.h is their C side.
#![tactic(auto)]

ghost use Rattle.std.specs.Prelude.{◌≡◌, ◌<◌, []};
ghost use Rattle.refusal.specs.Numbers.{number_in, number_if};
ghost use Rattle.views.specs.Viewing.{viewed};
ghost use Rattle.packing.specs.Packed.{packed};
ghost use Rattle.gateway.specs.Answers.{answer_of};
ghost use Rattle.gateway.specs.Calls.{left, worked_off, started, committed, agreed_time, taken, set_up};
ghost use Rattle.hurfaith.specs.Exported.{packed_answer, packed_work, packed_time, routed, number_alone, settings_given, LampAnswer, packed_view, balance_given};

use commit::commit;
use frame::lamps::LAMP_PLACE;
use gateway::Opening;
use lamp::lamp_or_reason;
use model::LeadTimes;
use neighbours::neighbours_of;
use opening::set_up::set_up;
use packing::{number_at, packed, packed_two, put_front};
use records::balance::balance;
use refusal::Refusal;
use round::agreed::agreed_time;
use round::start::start;
use take::take;
use views::view;
use work::work;

// The neighbours of a gateway: the two that it hears from and the two that it tells, 65,535 where there is none.
#[unsafe(no_mangle)]
pub extern "C" fn hurfaith_route(gateways: u32, own: u32, neighbours: &mut [u16]) -> u32
    ensures { record { answer = result; neighbours = neighbours.new } ≡ routed gateways own neighbours.old }
{
    match route(gateways, own, neighbours) {
        Ok(()) => 0,
        Err(why) => why.number() as u32,
    }
}

// Puts the neighbours of gateway own among n to the array's front.
fn route(n: u32, own: u32, neighbours: &mut [u16]) -> Result<(), Refusal>
    ensures { record { answer = number_in result; neighbours = neighbours.new } ≡ routed n own neighbours.old }
{
    let around = neighbours_of(n, own)?;
    if neighbours.len() < 4 {
        return Err(Refusal::NoRoom);
    }
    let numbers = [
        number_at(around.from, 0),
        number_at(around.from, 1),
        number_at(around.to, 0),
        number_at(around.to, 1),
    ];
    put_front(neighbours, numbers);
    Ok(())
}

// Set up.
#[unsafe(no_mangle)]
pub extern "C" fn hurfaith_set_up(
    memory: &mut [u8],
    list: &[u8],
    gateways: u32,
    own: u32,
    supplier: u32,
    stock: u32,
    last_hour: u32,
    queue_places: u32,
    outstanding_places: u32,
    request_hours: u32,
    delivery_hours: u32,
    life_hours: u32,
) -> u32
    ensures { left result memory.new []
        ≡ number_alone (set_up
        (settings_given gateways own supplier stock last_hour queue_places outstanding_places
        request_hours delivery_hours life_hours)
        list.now memory.old) }
{
    let hours = LeadTimes {
        request: request_hours,
        delivery: delivery_hours,
        life: life_hours,
    };
    let opening = Opening {
        n: gateways,
        own,
        supplier,
        stock,
        last: last_hour,
        q: queue_places,
        u: outstanding_places,
        hours,
    };
    match set_up(memory, opening, list) {
        Ok(_) => 0,
        Err(why) => why.number() as u32,
    }
}

// Work: up to budget events.
#[unsafe(no_mangle)]
pub extern "C" fn hurfaith_work(memory: &mut [u8], output: &mut [u8], budget: u32) -> u64
    ensures { left result memory.new output.new ≡ packed_work (worked_off budget memory.old output.old) }
{
    let worked = work(memory, output, budget);
    packed(number_if(worked.stopped), worked.written, worked.count)
}

// The number of a refusal, or 0.
fn number_if(stopped: Option<Refusal>) -> u8
    ensures { result ≡ number_if stopped }
{
    match stopped {
        Some(why) => why.number(),
        None => 0,
    }
}

// Taking a frame.
#[unsafe(no_mangle)]
pub extern "C" fn hurfaith_take(memory: &mut [u8], frame: &[u8], output: &mut [u8]) -> u64
    ensures { left result memory.new output.new
        ≡ packed_answer (taken memory.old frame.now output.old) }
{
    packed_result(take(memory, frame, output))
}

// The start call.
#[unsafe(no_mangle)]
pub extern "C" fn hurfaith_start(memory: &mut [u8], output: &mut [u8]) -> u64
    ensures { left result memory.new output.new ≡ packed_answer (started memory.old output.old) }
{
    packed_result(start(memory, output))
}

// Commit.
#[unsafe(no_mangle)]
pub extern "C" fn hurfaith_commit(memory: &mut [u8], output: &mut [u8]) -> u64
    ensures { left result memory.new output.new ≡ packed_answer (committed memory.old output.old) }
{
    packed_result(commit(memory, output))
}

// The answer of a call that writes: the number of its refusal or 0, and the bytes written.
fn packed_result(answer: Result<usize, Refusal>) -> u64
    requires { (answer_of answer).written < 16777216 }
    ensures { result ≡ packed (answer_of answer).number (answer_of answer).written 0 }
{
    match answer {
        Ok(written) => packed(0, written, 0),
        Err(why) => packed(why.number(), 0, 0),
    }
}

// Reading the agreed time.
#[unsafe(no_mangle)]
pub extern "C" fn hurfaith_agreed_time(memory: &[u8]) -> u64
    ensures { result ≡ packed_time (agreed_time memory.now) }
{
    match agreed_time(memory) {
        Ok(hour) => packed(0, 0, hour),
        Err(why) => packed(why.number(), 0, 0),
    }
}

// Reading the lamp: the number, and the place of the lamp's first byte in the frame.
#[unsafe(no_mangle)]
pub extern "C" fn hurfaith_lamp(frame: &[u8]) -> u64
    ensures { LampAnswer frame.entry result }
{
    match lamp_or_reason(frame) {
        Ok(_) => packed(0, LAMP_PLACE, 0),
        Err(reason) => packed(reason.number(), 0, 0),
    }
}

// A reader's view of a record: the number, and the bytes written. Reader 0 is purchasing, 1 maintenance; old_stock is 1 for a record with
// the old stock, else 0.
#[unsafe(no_mangle)]
pub extern "C" fn hurfaith_view(bytes: &[u8], output: &mut [u8], reader: u32, old_stock: u32) -> u64
    ensures { record { answer = result; output = output.new }
        ≡ packed_view (viewed reader old_stock bytes.now output.old) }
{
    match view(bytes, output, reader, old_stock) {
        Ok(written) => packed_two(0, written),
        Err(why) => packed_two(why.number(), 0),
    }
}

// The balance of a record with an opening stock: what the Restocks brought, the Requests that found stock, and the stock in the last
// event's state, at the array's front.
#[unsafe(no_mangle)]
pub extern "C" fn hurfaith_balance(bytes: &[u8], opening_stock: u32, figures: &mut [u64]) -> u32
    ensures { record { answer = result; figures = figures.new }
        ≡ balance_given opening_stock bytes.now figures.old }
{
    let found = match balance(bytes, opening_stock) {
        Ok(found) => found,
        Err(why) => return u32::from(why.number()),
    };
    if figures.len() < 3 {
        return u32::from(Refusal::NoRoom.number());
    }
    put_front(figures, [found.received, found.served, found.stock]);
    0
}
