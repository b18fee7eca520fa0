// The kinds of one row: all but 19, which is in `path`, and 20, which is a verdict.
ghost use Rattle.std.specs.Prelude.{◌≡◌, map, ◌≤◌, ◌<◌};
ghost use Rattle.policy.specs.Limits.{most_filters, most_rows, technologies};
ghost use Rattle.policy.specs.Views.{row_of, row_in, coefficients_of, filter_of, filter_in};
ghost use Rattle.kinds.specs.Views.{placed_of, placed_in};
ghost use Rattle.kinds.specs.Tests.{internal_loop, out_of_place, lacks as lacks_test, non_enforceable, inadequate as inadequate_test, filters as filters_test, excepts as excepts_test, excepted as excepted_test, filtered_by as filtered_by_test, filtered as filtered_test, layer_two, cyclic as cyclic_test, rides as rides_test, superfluous as superfluous_test, answers as answers_test, asymmetric as asymmetric_test};

use crate::placed::{Placed, Roots};
use crate::{placed, roots};
use policy::limits::{DROPPING, PASSING};
use policy::row::{Coefficients, Filter, Row};
use policy::table::{Caps, Table};
use relations::{coefficients, selector, technology};

// 1, internal loop: root(s) = root(d).
pub fn internal_loop(p: Placed) -> bool
    ensures { result ≡ internal_loop (placed_of p) }
{
    p.from == p.to
}

// 2, out of place: holder is not root(s).
pub fn out_of_place(p: Placed) -> bool
    ensures { result ≡ out_of_place (placed_of p) }
{
    p.row.holder != p.from
}

// Whether bit u of the mask is 0.
#[tactic(auto, unfolding(crate::specs::Tests::lacks))]
fn lacks(mask: u8, u: u8) -> bool
    requires { u < 8 }
    ensures { result ≡ lacks_test mask u }
{
    (mask >> u) % 2 == 0
}

// 3, non-enforceable: t isn't NULL, and root(s) or root(d), whose masks are `from` and `to`, lacks t or a coefficient exceeds t's cap.
#[tactic(auto, unfolding(crate::specs::Tests::non_enforceable))]
pub fn non_enforceable(from: u8, to: u8, caps: &Caps, r: Row) -> bool
    requires { r.technology ≤ technologies }
    ensures { result ≡ non_enforceable from to (map coefficients_of caps.now) (row_of r) }
{
    let u = r.technology;
    if u == 0 {
        return false;
    }
    let cap = caps[usize::from(u - 1)];
    lacks(from, u) || lacks(to, u) || !coefficients::at_least(cap, r.coefficients)
}

// 4, inadequate: C ⪰ floor fails.
pub fn inadequate(floor: Coefficients, r: Row) -> bool
    ensures { result ≡ inadequate_test (coefficients_of floor) (row_of r) }
{
    !coefficients::at_least(r.coefficients, floor)
}

// Whether q rides in p, if it is another row: root(s) of p stands at some place of G of q and root(d) at a later one, and S of p contains S of q.
#[tactic(auto, unfolding(crate::specs::Tests::rides))]
fn rides(q: Placed, p: Placed) -> bool
    ensures { result ≡ rides_test (placed_of q) (placed_of p) }
{
    let s = q.row;
    roots::in_order(p.from, p.to, s.gateway_list())
        && selector::contains(p.row.selector, s.selector)
}

// 12, superfluous: some row rides in row i, and every j that rides has Cj ⪰ Ci.
pub fn superfluous(t: &Table, roots: &Roots, i: usize) -> bool
    requires { (t.now.rows ≤ most_rows) × (i < most_rows) }
    ensures { result ≡ superfluous_test (placed_in t.now.heads t.now.bounds roots.now) t.now.rows i }
{
    let p = placed::placed_at(t, roots, i);
    let mut ridden = false;
    for j in 0..t.rows {
        let q = placed::placed_at(t, roots, j);
        if j != i && rides(q, p) {
            let weaker = !coefficients::at_least(q.row.coefficients, p.row.coefficients);
            if weaker {
                return false;
            }
            ridden = true;
        }
    }
    ridden
}

// Whether the filter drops, is of a root in G and has a box that contains S.
#[tactic(auto, unfolding(crate::specs::Tests::filters))]
fn filters(f: Filter, r: Row) -> bool
    ensures { result ≡ filters_test (row_of r) (filter_of f) }
{
    f.action == DROPPING
        && roots::is_gateway(f.root, r)
        && selector::contains(f.selector, r.selector)
}

// Whether the filter passes, is of this root and has a box that overlaps S.
#[tactic(auto, unfolding(crate::specs::Tests::excepts))]
fn excepts(f: Filter, root: u8, r: Row) -> bool
    ensures { result ≡ excepts_test (row_of r) root (filter_of f) }
{
    f.action == PASSING && f.root == root && selector::overlaps(f.selector, r.selector)
}

// Whether one of the first `count` filters excepts packets of the row at this root.
fn excepted(t: &Table, count: usize, root: u8, r: Row) -> bool
    requires { count ≤ most_filters }
    ensures { result ≡ excepted_test (filter_in t.now.filter_roots t.now.filter_actions t.now.bounds) count root (row_of r) }
{
    (0..count).any(|k| excepts(t.filter(k), root, r))
}

// Whether filter k filters the row, and no filter before it excepts.
#[tactic(auto, unfolding(crate::specs::Tests::filtered_by))]
fn filtered_by(t: &Table, k: usize, r: Row) -> bool
    requires { k < most_filters }
    ensures { result ≡ filtered_by_test (filter_in t.now.filter_roots t.now.filter_actions t.now.bounds) k (row_of r) }
{
    let f = t.filter(k);
    filters(f, r) && !excepted(t, k, f.root, r)
}

// 14, filtered: one dropping filter of a root in G has a box that contains S, and no passing filter before it of that root overlaps S.
pub fn filtered(t: &Table, r: Row) -> bool
    requires { t.now.filters ≤ most_filters }
    ensures { result ≡ filtered_test (filter_in t.now.filter_roots t.now.filter_actions t.now.bounds) t.now.filters (row_of r) }
{
    (0..t.filters).any(|k| filtered_by(t, k, r))
}

// 15, layer two: t has layer 2 and G isn't empty.
#[tactic(auto, using(crate::proofs::Laws::Roots::empty_length), unfolding(crate::specs::Tests::layer_two))]
pub fn layer_two(r: Row) -> bool
    ensures { result ≡ layer_two (row_of r) }
{
    technology::layer(r.technology) == 2 && !r.gateway_list().is_empty()
}

// Whether q answers r: source and destination exchanged, also in the box, and equal coefficients.
#[tactic(auto, unfolding(crate::specs::Tests::answers))]
fn answers(q: Row, r: Row) -> bool
    ensures { result ≡ answers_test (row_of q) (row_of r) }
{
    q.source == r.destination
        && q.destination == r.source
        && coefficients::equals(q.coefficients, r.coefficients)
        && selector::equals(q.selector, selector::exchanged(r.selector))
}

// 16, asymmetric: no row answers row i.
pub fn asymmetric(t: &Table, i: usize) -> bool
    requires { (t.now.rows ≤ most_rows) × (i < most_rows) }
    ensures { result ≡ asymmetric_test (row_in t.now.heads t.now.bounds) t.now.rows i }
{
    let r = t.row(i);
    !(0..t.rows).any(|j| answers(t.row(j), r))
}

// 17, cyclic: root(s), G, root(d) in that order name a root twice.
#[tactic(auto, using(crate::proofs::Laws::Roots::twice_between), unfolding(crate::specs::Tests::cyclic))]
pub fn cyclic(p: Placed) -> bool
    ensures { result ≡ cyclic_test (placed_of p) }
{
    let r = p.row;
    p.from == p.to
        || roots::is_gateway(p.from, r)
        || roots::is_gateway(p.to, r)
        || roots::repeats(r.gateway_list())
}
