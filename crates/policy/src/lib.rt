// What a table holds, as structs by value, and the table itself as runs of numbers that can be lent.
#![tactic(auto)]

pub mod limits;
pub mod number;
pub mod row;
pub mod selector;
pub mod table;
