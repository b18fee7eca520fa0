// The kinds by their numbers: each kind's place in the list of specs/Kinds.antt.
#[derive(Clone, Copy, Debug, PartialEq, Eq)]
pub enum Kind {
    InternalLoop = 1,
    OutOfPlace = 2,
    NonEnforceable = 3,
    Inadequate = 4,
    Shadowing = 5,
    Redundancy = 6,
    Exception = 7,
    Correlation = 8,
    Inclusion = 9,
    Affinity = 10,
    Contradiction = 11,
    Superfluous = 12,
    Skewed = 13,
    Filtered = 14,
    LayerTwo = 15,
    Asymmetric = 16,
    Cyclic = 17,
    Monitorable = 18,
    AlternativePath = 19,
    Dead = 20,
    FilterShadowing = 21,
    FilterRedundancy = 22,
}

// How many kinds there are, which is the last one's number.
pub const KINDS: usize = Kind::FilterRedundancy as usize;

// The first kind of rows and how many there are, and the same of filters.
pub const ROW_KIND: u8 = Kind::InternalLoop as u8;

pub const ROW_KINDS: u8 = Kind::Dead as u8;

pub const FILTER_KIND: u8 = Kind::FilterShadowing as u8;

pub const FILTER_KINDS: u8 = KINDS as u8 - ROW_KINDS;

// The second number of an entry of one row: FF.
// As it is: the entries that List writes hold it there, as `no_second` says.
pub const NO_SECOND: u8 = 255;
