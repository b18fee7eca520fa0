// Document 01, "Relations": the layer that the anomalies rest on.
#![tactic(auto)]

pub mod coefficients;
pub mod entity;
pub mod group;
pub mod range;
pub mod relation;
pub mod selector;
pub mod technology;
