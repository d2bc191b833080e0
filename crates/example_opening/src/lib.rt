// How the last example begins: two gateways, and the opening list of gateway 0 with two Failures.
#![tactic(auto)]

ghost use Rattle.std.specs.Prelude.{◌≡◌, []};
ghost use Rattle.gateway.specs.Calls.{set_up};
ghost use Rattle.example_opening.specs.Inside.Settings.{example_opening};

use arrayvec::ArrayVec;
use gateway::Opening;
use lines::{push_plain, town_hours};
use model::{Kind, Message};
use opening::set_up::set_up;

// Sets the memories of both gateways up, gateway 0 with the list.
pub fn set_up_both(first: &mut [u8], second: &mut [u8], list: &[u8])
    ensures first { first.new ≡ (set_up (example_opening 0 0) list.now first.old).memory }
    ensures second { second.new ≡ (set_up (example_opening 1 1) [] second.old).memory }
{
    let _ = set_up(first, opening(0, 0), list);
    let _ = set_up(second, opening(1, 1), b"");
}

// The settings of the example. Supplier of both is gateway 1.
fn opening(own: u32, stock: u32) -> Opening
    ensures { result ≡ example_opening own stock }
{
    Opening {
        n: 2,
        own,
        supplier: 1,
        stock,
        last: 100,
        q: 512,
        u: 512,
        hours: town_hours(),
    }
}

// Gateway 0's opening list: at hour 10, Failures of L00000000000000001 and L00000000000000002, each of 27 bytes.
pub fn opening_list() -> ArrayVec<u8, 54> {
    let mut list = ArrayVec::new();
    for digit in [b'1', b'2'] {
        push_plain(&mut list, failure(digit));
    }
    list
}

// The Failure of the lamp that ends in that digit.
fn failure(digit: u8) -> Message {
    let mut lamp = [b'0'; 18];
    lamp[0] = b'L';
    lamp[17] = digit;
    Message {
        hour: 10,
        from: 0,
        to: 0,
        kind: Kind::Failure { origin: 0 },
        lamp,
    }
}
