// Prints the list of the faults of the table on standard input. Where the input can't be read, nothing is printed.
#![tactic(auto)]

use printing::limits;

// As it is: as in `strike`, but for the function and the room; one main for both would be handed the two, in as many lines.
fn main(rt: HostRuntime) {
    let mut input = [0u8; limits::INPUT_BUFFER];
    let Ok(length) = standard::read(&rt, &mut input) else {
        return;
    };
    let mut out = [0u8; limits::PRINTED];
    if let Ok(n) = printing::rowlist(&input[..length], &mut out) {
        standard::print(&rt, &out[..n]);
    }
}
