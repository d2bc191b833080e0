// The turns of two gateways: in each they work, exchange their frames and commit, until nothing is left to do.
#![tactic(auto)]

use arrayvec::ArrayVec;
use carrier::bring_all;
use committing::commit_both;
use lines::Gateway;
use working::{nothing_due, start_if_due, work_both};

// Turns until nothing is left to do, at most 1000. The frames under way stand in the line; what the gateways commit stands in their
// records.
pub fn take_turns<const M: usize, const R: usize, const N: usize>(
    gateways: &mut [Gateway<M, R>; 2],
    line: &mut ArrayVec<u8, N>,
) {
    for _ in 0..1000 {
        exchange(gateways, line);
        commit_both(gateways);
        if line.is_empty() && gateways.iter().all(nothing_due) {
            break;
        }
    }
}

// The first three steps of a turn: both gateways work, the frames that are then under way are brought, gateway 0 gets the start call.
fn exchange<const M: usize, const R: usize, const N: usize>(
    gateways: &mut [Gateway<M, R>; 2],
    line: &mut ArrayVec<u8, N>,
) {
    work_both(gateways, line);
    *line = bring_all(gateways, line);
    start_if_due(&mut gateways[0], line);
}
