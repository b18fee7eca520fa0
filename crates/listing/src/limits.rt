// The limits of a list, by name. What they are is said in specs/Bytes.antt, and in specs/Entries.antt of `kinds`.
pub const ENTRIES: usize = 13792;

pub const ENTRY_BYTES: usize = 3;

pub const LIST_BYTES: usize = ENTRY_BYTES * ENTRIES;
