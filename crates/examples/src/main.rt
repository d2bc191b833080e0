// The program examples: prints document 01's examples that are compared with a second program. Which of 22 and 23 gateways share
// a bottom row; then the records of the last example's two gateways, a line an event, and whether the single queue gives the same.
#![tactic(auto)]

ghost use Rattle.std.specs.Prelude.{◌≤◌};

use agreement::compare;
use arrayvec::ArrayVec;
use example_opening::{opening_list, set_up_both};
use lines::Gateway;
use neighbours::middles::Middles;
use printing::print_record;
use std::io;
use turns::take_turns;

fn main(rt: HostRuntime) -> io::Result<()> {
    print_sharing(&rt, 22)?;
    print_sharing(&rt, 23)?;
    print_example(&rt)
}

// Prints whether the two trees of n gateways share a bottom row, as Figure 2's row says.
fn print_sharing(rt: &impl Print, n: u32) -> io::Result<()>
    requires { (1 ≤ n) × (n ≤ 65535) }
{
    if Middles::new(n).shared {
        println!(rt; "{n} shared")
    } else {
        println!(rt; "{n} not shared")
    }
}

// Prints the records that the gateways commit, with a carrier between them, then whether the single queue gives the same. What is under
// way at once has at most 16,384 bytes.
fn print_example(rt: &impl Print) -> io::Result<()> {
    let list = opening_list();
    let mut line = ArrayVec::<u8, 16384>::new();
    let mut first = Gateway::<49408, 4096>::new();
    let mut second = Gateway::new();
    set_up_both(&mut first.memory, &mut second.memory, &list);
    let mut gateways = [first, second];
    take_turns(&mut gateways, &mut line);
    for (own, gateway) in gateways.iter().enumerate() {
        print_record(rt, own, &gateway.events)?;
    }
    compare(rt, &list, &gateways)
}
