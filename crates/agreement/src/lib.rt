// Whether the single queue gives the records that the two gateways of the last example committed.
#![tactic(auto)]

use lines::Gateway;
use single_queue::run;
use std::io;

// Prints that the single queue's records are the gateways', if they are.
pub fn compare<const M: usize, const R: usize>(
    rt: &impl Print,
    list: &[u8],
    gateways: &[Gateway<M, R>; 2],
) -> io::Result<()> {
    let [first, second] = run::<R>(list);
    if gateways[0].events == first && gateways[1].events == second {
        println!(rt; "single queue agrees")?;
    }
    Ok(())
}
