// The kinds of two rows. What they look at is found once for a pair; each kind is then a function of it.
ghost use Rattle.std.specs.Prelude.{◌≡◌, ◌<◌};
ghost use Rattle.policy.specs.Limits.{most_entities};
ghost use Rattle.policy.specs.Views.{parent_in, row_of};
ghost use Rattle.relations.specs.Entities.{Parents};
ghost use Rattle.kinds.specs.Views.{placed_of, Comparable};
ghost use Rattle.kinds.specs.Tests.{encloses as encloses_test, same_traffic, pair_of, shadowing as shadowing_test, redundancy as redundancy_test, exception as exception_test, correlation as correlation_test, inclusion as inclusion_test, inclusion_back, affinity as affinity_test, contradiction as contradiction_test, skewed as skewed_test, monitorable as monitorable_test};

use crate::placed::Placed;
use crate::roots;
use policy::row::Row;
use policy::table::PerEntity;
use relations::{coefficients, entity, group, selector, technology};

// How row i stands to row j.
#[derive(Clone, Copy)]
pub struct Pair {
    // one holder; i is earlier besides; i is earlier, and holder, t and G are equal
    pub holder: bool,
    pub earlier: bool,
    pub group: bool,
    // G equal; t equal; ti is NULL, tj is NULL; ti ≻ tj, tj ≻ ti
    pub gateways: bool,
    pub technology: bool,
    pub null: bool,
    pub other_null: bool,
    pub dominates: bool,
    pub dominated: bool,
    // si ⪰ sj, di ⪰ dj and Si ⪰ Sj; the same with i and j exchanged; the three equal
    pub encloses: bool,
    pub enclosed: bool,
    pub same: bool,
    // Ci ⪰ Cj, Cj ⪰ Ci
    pub stronger: bool,
    pub weaker: bool,
    // same source root, same destination root, boxes overlap; different rows, boxes overlap
    pub meets: bool,
    pub crossing: bool,
    // root(sj) in Gi, root(di) in Gj
    pub source_inside: bool,
    pub destination_inside: bool,
    // root(di) = root(sj), root(si) = root(dj); both confidentialities above 0
    pub through: bool,
    pub back: bool,
    pub confidential: bool,
}

// Whether r's source ⪰ q's, r's destination ⪰ q's and r's box contains q's.
#[tactic(auto, unfolding(crate::specs::Tests::encloses))]
fn encloses(parents: &PerEntity, r: Row, q: Row) -> bool
    requires { Parents parents.now × (q.source < most_entities) × (q.destination < most_entities) }
    ensures { result ≡ encloses_test (parent_in parents.now) (row_of r) (row_of q) }
{
    selector::contains(r.selector, q.selector)
        && entity::at_or_above(parents, r.source, q.source)
        && entity::at_or_above(parents, r.destination, q.destination)
}

// Whether source, destination and box of the two are equal.
#[tactic(auto, unfolding(crate::specs::Tests::same_traffic))]
fn same_traffic(r: Row, q: Row) -> bool
    ensures { result ≡ same_traffic (row_of r) (row_of q) }
{
    r.source == q.source
        && r.destination == q.destination
        && selector::equals(r.selector, q.selector)
}

// How p, row i, stands to q, row j, where their boxes overlap.
pub fn pair_of(parents: &PerEntity, i: usize, j: usize, p: Placed, q: Placed) -> Pair
    requires { Parents parents.now × Comparable (placed_of p) (placed_of q) }
    ensures { result ≡ pair_of (parent_in parents.now) i j (placed_of p) (placed_of q) }
{
    let r = p.row;
    let s = q.row;
    let holder = r.holder == s.holder;
    let technology = r.technology == s.technology;
    let gateways = group::same_gateways(r, s);
    let earlier = holder && i < j;
    let group = holder && technology && gateways && i < j;
    let meets = p.from == q.from && p.to == q.to;
    let confidential = 0 < r.coefficients.confidentiality && 0 < s.coefficients.confidentiality;
    Pair {
        holder,
        earlier,
        group,
        gateways,
        technology,
        null: r.technology == 0,
        other_null: s.technology == 0,
        dominates: technology::dominates(r.technology, s.technology),
        dominated: technology::dominates(s.technology, r.technology),
        encloses: encloses(parents, r, s),
        enclosed: encloses(parents, s, r),
        same: same_traffic(r, s),
        stronger: coefficients::at_least(r.coefficients, s.coefficients),
        weaker: coefficients::at_least(s.coefficients, r.coefficients),
        meets,
        crossing: i != j,
        source_inside: roots::is_gateway(q.from, r),
        destination_inside: roots::is_gateway(p.to, s),
        through: p.to == q.from,
        back: p.from == q.to,
        confidential,
    }
}

// 5, shadowing: i is earlier in one group, si ⪰ sj, di ⪰ dj, Si ⪰ Sj, not Ci ⪰ Cj.
pub fn shadowing(p: Pair) -> bool
    ensures { result ≡ shadowing_test p }
{
    p.group && p.encloses && !p.stronger
}

// 6, redundancy: the same with Ci ⪰ Cj.
pub fn redundancy(p: Pair) -> bool
    ensures { result ≡ redundancy_test p }
{
    p.group && p.encloses && p.stronger
}

// 7, exception: i is earlier in one group, sj ⪰ si, dj ⪰ di, Sj ⪰ Si, not all three equal, not Ci ⪰ Cj.
pub fn exception(p: Pair) -> bool
    ensures { result ≡ exception_test p }
{
    p.group && p.enclosed && !p.same && !p.stronger
}

// 8, correlation: i is earlier in one group, same source root, same destination root, boxes overlap, none of 5 to 7.
pub fn correlation(p: Pair) -> bool
    ensures { result ≡ correlation_test p }
{
    p.group && p.meets && !shadowing(p) && !redundancy(p) && !exception(p)
}

// 9, inclusion: one holder, ti ≻ tj, si ⪰ sj, di ⪰ dj, Ci ⪰ Cj, Si ⪰ Sj, G equal.
pub fn inclusion(p: Pair) -> bool
    ensures { result ≡ inclusion_test p }
{
    p.holder && p.dominates && p.encloses && p.stronger && p.gateways
}

// 9, inclusion, of rows j and i.
fn inclusion_back(p: Pair) -> bool
    ensures { result ≡ inclusion_back p }
{
    p.holder && p.dominated && p.enclosed && p.weaker && p.gateways
}

// 10, affinity: one holder, i is earlier, t differ, neither NULL, roots as in 8, boxes overlap, no 9 either way.
pub fn affinity(p: Pair) -> bool
    ensures { result ≡ affinity_test p }
{
    p.earlier
        && !p.technology
        && !p.null
        && !p.other_null
        && p.meets
        && !inclusion(p)
        && !inclusion_back(p)
}

// 11, contradiction: one holder, i is earlier, exactly one NULL, roots as in 8, boxes overlap.
pub fn contradiction(p: Pair) -> bool
    ensures { result ≡ contradiction_test p }
{
    p.earlier && p.null != p.other_null && p.meets
}

// 13, skewed: different rows, boxes overlap, neither NULL, root(sj) in Gi, root(di) in Gj.
pub fn skewed(p: Pair) -> bool
    ensures { result ≡ skewed_test p }
{
    p.crossing && !p.null && !p.other_null && p.source_inside && p.destination_inside
}

// 18, monitorable: different rows, boxes overlap, root(di) = root(sj), root(si) ≠ root(dj), both confidentialities above 0.
pub fn monitorable(p: Pair) -> bool
    ensures { result ≡ monitorable_test p }
{
    p.crossing && p.through && !p.back && p.confidential
}
