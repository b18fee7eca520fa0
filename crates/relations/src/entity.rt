// Entities. The parents of all are lent, by entity number, and left unchanged.
ghost use Rattle.std.specs.Prelude.{◌≡◌, ◌<◌, MatchOption};
ghost use Rattle.std.specs.Iterator.{YieldsFirst, item_count};
ghost use Rattle.policy.specs.Limits.{most_entities};
ghost use Rattle.policy.specs.Model.{no_parent};
ghost use Rattle.policy.specs.Views.{parent_in};
ghost use Rattle.relations.specs.Entities.{Parents, root_of, at_or_above, lowest_above, entity_relation, above, CanClimb, left_above};

use crate::relation;
use crate::relation::Relation;
use policy::limits::NO_PARENT;
use policy::table::PerEntity;
use std::iter;

// The parent of e. A root has none.
fn parent(parents: &PerEntity, e: u8) -> Option<u8>
    requires { Parents parents.now × (e < most_entities) }
    ensures { MatchOption result (parent_in parents.now e ≡ no_parent) (λ up. (parent_in parents.now e ≡ up) × (up < e)) }
{
    let up = parents[e as usize];
    if up == NO_PARENT { None } else { Some(up) }
}

// A climb from an entity: it goes on to the parent, the parent's parent and so on.
#[derive(Clone, Copy)]
struct Climb<'a> {
    parents: &'a PerEntity,
    at: u8,
}

impl<'a> Iterator for Climb<'a> {
    type Item = u8;

    ghost can_next = { CanClimb };

    ghost next_gives = { YieldsFirst left_above };

    ghost remaining = { item_count left_above };

    fn next(&mut self) -> Option<u8> {
        self.at = parent(self.parents, self.at)?;
        Some(self.at)
    }
}

// The parents of e upward.
fn above<'a>(parents: &'a PerEntity, e: u8) -> Climb<'a>
    requires { Parents parents.now × (e < most_entities) }
    ensures can { CanClimb result }
    ensures left { left_above result ≡ above (parent_in parents.now) e }
{
    Climb { parents, at: e }
}

// The root of e: the entity at the top of its parents.
pub fn root(parents: &PerEntity, e: u8) -> u8
    requires { Parents parents.now × (e < most_entities) }
    ensures { result ≡ root_of (parent_in parents.now) e }
{
    above(parents, e).last().unwrap_or(e)
}

// Whether e ⪰ f: e is f or among f's parents upward.
pub fn at_or_above(parents: &PerEntity, e: u8, f: u8) -> bool
    requires { Parents parents.now × (f < most_entities) }
    ensures { result ≡ at_or_above (parent_in parents.now) e f }
{
    e == f || above(parents, f).any(|up| e == up)
}

// The lowest entity that is ⪰ both, of entities with one root: of e and its parents upward the first that is ⪰ f. Of others, e's root.
pub fn lowest_above(parents: &PerEntity, e: u8, f: u8) -> u8
    requires { Parents parents.now × (e < most_entities) × (f < most_entities) }
    ensures { result ≡ lowest_above (parent_in parents.now) e f }
{
    let mut upward = iter::once(e).chain(above(parents, e));
    match upward.find(|at| at_or_above(parents, *at, f)) {
        Some(lowest) => lowest,
        None => root(parents, e),
    }
}

// How e stands to f.
#[tactic(auto, unfolding(crate::specs::Entities::entity_relation))]
pub fn relation(parents: &PerEntity, e: u8, f: u8) -> Relation
    requires { Parents parents.now × (e < most_entities) × (f < most_entities) }
    ensures { result ≡ entity_relation (parent_in parents.now) e f }
{
    relation::by(
        e == f,
        at_or_above(parents, e, f),
        at_or_above(parents, f, e),
        root(parents, e) == root(parents, f),
    )
}
