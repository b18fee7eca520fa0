// The twenty-two kinds of anomalies: a function for each, equal to its test in specs/.
#![tactic(auto)]

pub mod filter;
pub mod numbers;
pub mod pair;
pub mod path;
pub mod placed;
pub mod roots;
pub mod single;
