// Groups of rows, the probes that a row matches, and the winner of a probe. Nothing that is lent is changed.
ghost use Rattle.std.specs.Prelude.{◌≡◌, ◌<◌, ◌≤◌, take};
ghost use Rattle.policy.specs.Limits.{most_gateways, most_rows};
ghost use Rattle.policy.specs.Views.{parent_in, row_of, packet_of, rows_in};
ghost use Rattle.base.specs.Lists.{same};
ghost use Rattle.relations.specs.Entities.{TwoEntities};
ghost use Rattle.relations.specs.Groups.{same_group, matches as matches_test, winner_of_probe};

use crate::{entity, selector};
use policy::row::Row;
use policy::selector::Packet;
use policy::table::{PerEntity, Table};

// Two entities and a packet.
#[derive(Clone, Copy, Debug, PartialEq, Eq)]
pub struct Probe {
    pub source: u8,
    pub destination: u8,
    pub packet: Packet,
}

// Whether a and b have the same gateways.
// As it is: compared in pairs, since with `==` of both rows' lists same_group takes 27 ns and so 5.
pub fn same_gateways(a: Row, b: Row) -> bool
    ensures { result ≡ same (row_of a).gateways (row_of b).gateways }
{
    let n = a.gateway_count();
    n == b.gateway_count()
        && a.gateways
            .iter()
            .zip(&b.gateways)
            .take(n)
            .all(|(x, y)| x == y)
}

// Whether a and b are of one group: equal holder, technology and gateways.
#[tactic(auto, unfolding(crate::specs::Groups::same_group))]
pub fn same_group(a: Row, b: Row) -> bool
    ensures { result ≡ same_group (row_of a) (row_of b) }
{
    a.holder == b.holder && a.technology == b.technology && same_gateways(a, b)
}

// Whether the row matches the probe.
#[tactic(auto, unfolding(crate::specs::Groups::matches))]
pub fn matches(parents: &PerEntity, r: Row, p: Probe) -> bool
    requires { TwoEntities parents.now p.source p.destination }
    ensures { result ≡ matches_test (parent_in parents.now) (row_of r) p.source p.destination (packet_of p.packet) }
{
    entity::at_or_above(parents, r.source, p.source)
        && entity::at_or_above(parents, r.destination, p.destination)
        && selector::holds(r.selector, p.packet)
}

// The row that wins the probe in the group that row g names: the first of the table's rows that is of the group and matches, or none.
pub fn winner(t: &Table, g: usize, p: Probe) -> Option<usize>
    requires { TwoEntities t.now.parents p.source p.destination × (g < t.now.rows) × (t.now.rows ≤ most_rows) }
    ensures { result ≡ winner_of_probe (parent_in t.now.parents) (rows_in t.now.heads t.now.bounds t.now.rows) g p }
{
    let named = t.row(g);
    for i in 0..t.rows {
        let r = t.row(i);
        if same_group(r, named) & matches(&t.parents, r, p) {
            return Some(i);
        }
    }
    None
}
