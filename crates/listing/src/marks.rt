// The kinds that hold of a row, of two, or of two filters, as a number: bit k for kind k.
ghost use Rattle.std.specs.Prelude.{◌≡◌, ◌≤◌, ◌<◌, get_or};
ghost use Rattle.policy.specs.Limits.{most_filters, most_rows};
ghost use Rattle.policy.specs.Views.{parent_in, row_of, filter_of};
ghost use Rattle.relations.specs.Entities.{Parents};
ghost use Rattle.kinds.specs.Views.{placed_of};
ghost use Rattle.kinds.specs.Tests.{pair_of};
ghost use Rattle.kinds.specs.Kinds.{kind_count, pair_tests, filter_tests};
ghost use Rattle.kinds.specs.Entries.{most_entries};
ghost use Rattle.base.specs.Bits.{bits_of, marked as marked_test};
ghost use Rattle.listing.specs.Marks.{mark_at, GoodRow, GoodAlone, GoodAmong, alone_marks, MarkedPairs, MarkedFilter, MarkedFilters, row_count};

use kinds::numbers::{KINDS, Kind};
use kinds::placed::{Placed, Roots};
use kinds::{filter, pair, path, placed, single};
use policy::limits::ROWS;
use policy::row::Filter;
use policy::table::{PerEntity, Table};
use relations::selector;

// A number for each two rows, and each two filters: that of rows i and j, and of filters i and j, at ROWS * i + j.
pub type PairMarks = [u32; ROWS * ROWS];

// The kinds that are marked, as numbers: those of each row alone, and those of each two rows and each two filters.
#[derive(Clone, Copy)]
pub struct Marks {
    pub own: [u32; ROWS],
    pub pairs: PairMarks,
}

impl Marks {
    // Whether the kind is marked of thing i alone.
    pub fn has_alone(&self, i: usize, kind: u8) -> bool
        requires { (i < most_rows) × (kind ≤ kind_count) }
        ensures { result ≡ marked_test (get_or self.now.own i 0) kind }
    {
        marked(self.own[i], kind)
    }

    // Whether the kind is marked of things i and j.
    pub fn has_pair(&self, i: usize, j: usize, kind: u8) -> bool
        requires { (i < most_rows) × (j < most_rows) × (kind ≤ kind_count) }
        ensures { result ≡ marked_test (mark_at self.now.pairs i j) kind }
    {
        marked(self.pairs[ROWS * i + j], kind)
    }

    // How many kinds are marked of row i: alone, and with each of `rows` rows.
    pub fn count_row(&self, rows: usize, i: usize) -> u32
        requires { (i < rows) × (rows ≤ most_rows) × (row_count (get_or self.now.own i 0) self.now.pairs rows i ≤ most_entries) }
        ensures { result ≡ row_count (get_or self.now.own i 0) self.now.pairs rows i }
    {
        let at = ROWS * i;
        let paired: u32 = self.pairs[at..at + rows]
            .iter()
            .map(|m| m.count_ones())
            .sum();
        self.own[i].count_ones() + paired
    }
}

// Whether each kind holds, at its number; 0 is no kind's.
type Holds = [bool; KINDS + 1];

// The kinds that hold as a number, bit k for kind k.
fn bits_of(holds: &Holds) -> u32
    ensures { result ≡ bits_of holds.now }
{
    let mut m = 0;
    for h in holds.iter().rev() {
        m = 2 * m + u32::from(*h);
    }
    m
}

// Whether bit k of the number is 1.
#[tactic(auto, unfolding(base::specs::Bits::marked))]
pub fn marked(m: u32, k: u8) -> bool
    requires { k < 32 }
    ensures { result ≡ marked_test m k }
{
    (m >> k) % 2 == 1
}

// The kinds of rows i and j, which are p and q. Of boxes that do not overlap there are none.
fn of_pair(parents: &PerEntity, i: usize, j: usize, p: Placed, q: Placed) -> u32
    requires { Parents parents.now × GoodRow (row_of p.row) × GoodRow (row_of q.row) }
    ensures { result ≡ bits_of (pair_tests (pair_of (parent_in parents.now) i j (placed_of p) (placed_of q))) }
{
    if !selector::overlaps(p.row.selector, q.row.selector) {
        return 0;
    }
    let s = pair::pair_of(parents, i, j, p, q);
    let mut holds = [false; KINDS + 1];
    holds[Kind::Shadowing as usize] = pair::shadowing(s);
    holds[Kind::Redundancy as usize] = pair::redundancy(s);
    holds[Kind::Exception as usize] = pair::exception(s);
    holds[Kind::Correlation as usize] = pair::correlation(s);
    holds[Kind::Inclusion as usize] = pair::inclusion(s);
    holds[Kind::Affinity as usize] = pair::affinity(s);
    holds[Kind::Contradiction as usize] = pair::contradiction(s);
    holds[Kind::Skewed as usize] = pair::skewed(s);
    holds[Kind::Monitorable as usize] = pair::monitorable(s);
    bits_of(&holds)
}

// Stores the kinds of row i and each row in row i's places of pairs; the others are unchanged.
pub fn of_pairs(t: &Table, roots: &Roots, i: usize, pairs: &mut PairMarks)
    requires { GoodAmong t.now.parents t.now.heads t.now.bounds t.now.rows i }
    ensures { MarkedPairs t.now.parents t.now.heads t.now.bounds roots.now t.now.rows i pairs.old pairs.new }
{
    let p = placed::placed_at(t, roots, i);
    let at = ROWS * i;
    for j in 0..t.rows {
        pairs[at + j] = of_pair(&t.parents, i, j, p, placed::placed_at(t, roots, j));
    }
}

// The kinds of row i alone.
pub fn of_row(t: &Table, roots: &Roots, i: usize) -> u32
    requires { GoodAlone t.now roots.now i }
    ensures { result ≡ alone_marks t.now roots.now i }
{
    let p = placed::placed_at(t, roots, i);
    let r = p.row;
    let mut holds = [false; KINDS + 1];
    holds[Kind::InternalLoop as usize] = single::internal_loop(p);
    holds[Kind::OutOfPlace as usize] = single::out_of_place(p);
    holds[Kind::NonEnforceable as usize] = single::non_enforceable(
        t.masks[p.from as usize],
        t.masks[p.to as usize],
        &t.caps,
        r,
    );
    holds[Kind::Inadequate as usize] = single::inadequate(t.floor, r);
    holds[Kind::Superfluous as usize] = single::superfluous(t, roots, i);
    holds[Kind::Filtered as usize] = single::filtered(t, r);
    holds[Kind::LayerTwo as usize] = single::layer_two(r);
    holds[Kind::Asymmetric as usize] = single::asymmetric(t, i);
    holds[Kind::Cyclic as usize] = single::cyclic(p);
    holds[Kind::AlternativePath as usize] = path::alternative_path(t, roots, i);
    holds[Kind::Dead as usize] = verdicts::is_dead(t, i);
    bits_of(&holds)
}

// The kinds of filters k and m, which are f and g.
fn of_filter_pair(k: usize, m: usize, f: Filter, g: Filter) -> u32
    ensures { result ≡ bits_of (filter_tests k m (filter_of f) (filter_of g)) }
{
    let mut holds = [false; KINDS + 1];
    holds[Kind::FilterShadowing as usize] = filter::shadowing(k, m, f, g);
    holds[Kind::FilterRedundancy as usize] = filter::redundancy(f, g);
    bits_of(&holds)
}

// Adds the kinds of filter k and each filter to those in filter k's places of pairs; the others are unchanged. Returns how many they are.
fn of_filter(t: &Table, k: usize, pairs: &mut PairMarks) -> u32
    requires { (k < t.now.filters) × (t.now.filters ≤ most_filters) }
    ensures { MarkedFilter t.now.filter_roots t.now.filter_actions t.now.bounds t.now.filters k pairs.old pairs.new result }
{
    let f = t.filter(k);
    let at = ROWS * k;
    let mut n = 0;
    for m in 0..t.filters {
        let marks = of_filter_pair(k, m, f, t.filter(m));
        n += marks.count_ones();
        pairs[at + m] |= marks;
    }
    n
}

// Adds the kinds of each two filters to those in their places of pairs; the others are unchanged. Returns how many they are.
pub fn of_filters(t: &Table, pairs: &mut PairMarks) -> u32
    requires { t.now.filters ≤ most_filters }
    ensures { MarkedFilters t.now.filter_roots t.now.filter_actions t.now.bounds t.now.filters t.now.filters pairs.old pairs.new result }
{
    let mut n = 0;
    for k in 0..t.filters {
        n += of_filter(t, k, pairs);
    }
    n
}
