// The two gateways of the last example work, and gateway 0 starts a round unless the agreed time is nothing due.
#![tactic(auto)]

ghost use Rattle.std.specs.Prelude.{◌≤◌, length};

use arrayvec::ArrayVec;
use lines::{Gateway, append};
use round::agreed::agreed_time;
use round::start::start;
use work::work;

// Whether the agreed time is nothing due.
pub fn nothing_due<const M: usize, const R: usize>(gateway: &Gateway<M, R>) -> bool {
    agreed_time(&gateway.memory).is_ok_and(|hour| hour == u32::MAX)
}

// Gateway 0 works, then gateway 1.
pub fn work_both<const M: usize, const R: usize, const N: usize>(
    gateways: &mut [Gateway<M, R>; 2],
    line: &mut ArrayVec<u8, N>,
)
    ensures { length line.old.items ≤ length line.new.items }
{
    for gateway in gateways.iter_mut() {
        work_off(gateway, line);
    }
}

// A gateway works with B = 4.
fn work_off<const M: usize, const R: usize, const N: usize>(
    gateway: &mut Gateway<M, R>,
    line: &mut ArrayVec<u8, N>,
)
    ensures { length line.old.items ≤ length line.new.items }
{
    let mut output = [0u8; 4096];
    let worked = work(&mut gateway.memory, &mut output, 4);
    append(line, &output, worked.written);
}

// The start call, unless the agreed time is nothing due. It is refused while a round is open.
pub fn start_if_due<const M: usize, const R: usize, const N: usize>(
    gateway: &mut Gateway<M, R>,
    line: &mut ArrayVec<u8, N>,
)
    ensures { length line.old.items ≤ length line.new.items }
{
    if nothing_due(gateway) {
        return;
    }
    let mut output = [0u8; 4096];
    if let Ok(written) = start(&mut gateway.memory, &mut output) {
        append(line, &output, written);
    }
}
