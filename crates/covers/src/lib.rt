// The cover of a row: the earlier rows of its group that are ⪰ it in source and destination. The table is lent, and left unchanged.
#![tactic(auto)]

pub mod set;

ghost use Rattle.std.specs.Prelude.{◌≡◌};
ghost use Rattle.policy.specs.Views.{parent_in, row_of};
ghost use Rattle.relations.specs.Entities.{TwoEntities};
ghost use Rattle.covers.specs.Views.{BoxesAre};
ghost use Rattle.covers.specs.Covers.{covers as covers_test, Asked, cover_in};

use base::bit;
use policy::limits::ROWS;
use policy::row::Row;
use policy::table::{PerEntity, Table};
use relations::{entity, group};

// Boxes, by the numbers of their selectors.
// As it is: an array and its length, handed over by value, since there is no heap; `Bits` and `Field` go through it.
#[derive(Clone, Copy)]
pub struct Boxes {
    pub at: [u8; ROWS],
    pub count: usize,
}

// Whether q is of r's group and ⪰ it in source and destination.
#[tactic(auto, unfolding(crate::specs::Covers::covers))]
fn covers(parents: &PerEntity, r: Row, q: Row) -> bool
    requires { TwoEntities parents.now r.source r.destination }
    ensures { result ≡ covers_test (parent_in parents.now) (row_of r) (row_of q) }
{
    group::same_group(q, r)
        && entity::at_or_above(parents, q.source, r.source)
        && entity::at_or_above(parents, q.destination, r.destination)
}

// The rows before i whose selectors cover row i.
pub fn cover(t: &Table, i: usize) -> Boxes
    requires { Asked t.now.parents t.now.heads t.now.bounds i }
    ensures { BoxesAre t.now.bounds result 0 (cover_in t.now.parents t.now.heads t.now.bounds i) }
{
    let r = t.row(i);
    let mut at = [0u8; ROWS];
    let mut n = 0;
    for j in 0..i {
        at[n] = j as u8;
        n += bit(covers(&t.parents, r, t.row(j)));
    }
    Boxes { at, count: n }
}
