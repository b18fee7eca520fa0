// The widths of a box's fields, in bytes. Functions that read a box take the width of its addresses.
pub const ADDRESS: usize = 4;

pub const PORT: usize = 2;

pub const PROTOCOL: usize = 1;

// The widest number that is read from a line or written to one.
pub const MOST_WIDTH: usize = 8;
