// The limits of a table, by name, and how many numbers its runs have. What they are is said in specs/Limits.antt.
pub const ENTITIES: usize = 128;

pub const TECHNOLOGIES: usize = 6;

pub const FILTERS: usize = 32;

pub const ROWS: usize = 64;

pub const GATEWAYS: usize = 8;

pub const FIELDS: usize = 5;

// The selectors of the rows, and after them those of the filters.
pub const SELECTORS: usize = ROWS + FILTERS;

// A selector's words.
pub const WORD_COUNT: usize = 10;

// A row's bytes besides its selector.
pub const HEAD_COUNT: usize = 8 + GATEWAYS;

// The parent of a root, which is no entity's number.
pub const NO_PARENT: u8 = 255;

// The actions of filters.
pub const DROPPING: u8 = 0;

pub const PASSING: u8 = 1;
