// The frames' own readers. Each is given the part of a line after the kind byte. A module for each kind, as specs/Kinds.antt describes it:
// whether the part has the kind's length, whether it has its place in the sequence, the value that it says, and the rule that the value breaks.
#![tactic(auto)]

pub mod cap;
pub mod entity;
pub mod filter;
pub mod floor;
mod numbers;
pub mod parts;
pub mod refusals;
pub mod row;
pub mod widths;
