// How much the programs read and print. What the numbers are is said in specs/Limits.antt.
use listing::limits::ENTRIES;

// The longest input that is read as a text.
pub const INPUT: usize = 16384;

// One byte more tells that the input is longer.
pub const INPUT_BUFFER: usize = INPUT + 1;

// An entry's line.
pub const LINE_BYTES: usize = 7;

// The lines of the most entries.
pub const PRINTED: usize = LINE_BYTES * ENTRIES;
