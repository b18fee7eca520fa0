// Joining two rows: whether they can be joined, and the row that they are joined to. The parents of all entities are lent, and left unchanged.
#![tactic(auto)]

ghost use Rattle.std.specs.Prelude.{◌≡◌};
ghost use Rattle.policy.specs.Views.{parent_in, row_of};
ghost use Rattle.relations.specs.Entities.{TwoEntities};
ghost use Rattle.joining.specs.Joining.{joinable as joinable_test, joined as joined_row};

use policy::row::Row;
use policy::table::PerEntity;
use relations::{coefficients, entity, group, selector};

// Whether the rows have one holder, technology and list of gateways, one root of their sources and one of their destinations.
#[tactic(auto, unfolding(crate::specs::Joining::joinable))]
pub fn joinable(parents: &PerEntity, a: Row, b: Row) -> bool
    requires { TwoEntities parents.now a.source a.destination × TwoEntities parents.now b.source b.destination }
    ensures { result ≡ joinable_test (parent_in parents.now) (row_of a) (row_of b) }
{
    group::same_group(a, b)
        && entity::root(parents, a.source) == entity::root(parents, b.source)
        && entity::root(parents, a.destination) == entity::root(parents, b.destination)
}

// The row that two rows are joined to: the least that is ⪰ both, of rows that can be joined.
pub fn joined(parents: &PerEntity, a: Row, b: Row) -> Row
    requires { TwoEntities parents.now a.source a.destination × TwoEntities parents.now b.source b.destination }
    ensures { row_of result ≡ joined_row (parent_in parents.now) (row_of a) (row_of b) }
{
    Row {
        source: entity::lowest_above(parents, a.source, b.source),
        destination: entity::lowest_above(parents, a.destination, b.destination),
        coefficients: coefficients::larger(a.coefficients, b.coefficients),
        selector: selector::hull(a.selector, b.selector),
        ..a
    }
}
