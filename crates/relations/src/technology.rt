// Technologies, by number: 0 is NULL.
ghost use Rattle.std.specs.Prelude.{◌≡◌};
ghost use Rattle.relations.specs.Technologies.{layer_of, dominates as dominates_test, technology_relation};

use crate::relation;
use crate::relation::Relation;

// The layer of a technology; 0 for NULL, which has none.
// As it is: a number, since `dominates` promises how it answers of numbers above 6 too, which have layer 0 as NULL has.
#[tactic(auto, using(crate::proofs::Laws::Technologies::layers_by_range), unfolding(crate::specs::Technologies::layer_of))]
pub fn layer(t: u8) -> u8
    ensures { result ≡ layer_of t }
{
    match t {
        1..=2 => 2,
        3 => 3,
        4..=5 => 5,
        6 => 7,
        _ => 0,
    }
}

// Whether t dominates u: neither is NULL, and t has the smaller layer.
#[tactic(auto, unfolding(crate::specs::Technologies::dominates))]
pub fn dominates(t: u8, u: u8) -> bool
    ensures { result ≡ dominates_test t u }
{
    t != 0 && u != 0 && layer(t) < layer(u)
}

// How t stands to u.
#[tactic(auto, unfolding(crate::specs::Technologies::technology_relation))]
pub fn relation(t: u8, u: u8) -> Relation
    ensures { result ≡ technology_relation t u }
{
    relation::by(t == u, dominates(t, u), dominates(u, t), t != 0 && u != 0)
}
