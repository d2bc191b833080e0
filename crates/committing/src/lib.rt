// The two gateways of the last example commit what they can.
#![tactic(auto)]

use commit::commit;
use lines::{Gateway, append};

// The last step of a turn: gateway 0 commits what it can, then gateway 1.
pub fn commit_both<const M: usize, const R: usize>(gateways: &mut [Gateway<M, R>; 2]) {
    for gateway in gateways.iter_mut() {
        commit_all(gateway);
    }
}

// A gateway commits until a commit is refused, at most 1000 events.
fn commit_all<const M: usize, const R: usize>(gateway: &mut Gateway<M, R>) {
    let mut output = [0u8; 4096];
    for _ in 0..1000 {
        let Ok(written) = commit(&mut gateway.memory, &mut output) else {
            break;
        };
        append(&mut gateway.events, &output, written);
    }
}
