// Rows as the kinds look at them: each with the roots of its source and destination. The roots of all rows are found once, and lent.
ghost use Rattle.std.specs.Prelude.{◌≡◌, ◌≤◌, ◌<◌};
ghost use Rattle.policy.specs.Limits.{most_rows};
ghost use Rattle.relations.specs.Entities.{Parents};
ghost use Rattle.kinds.specs.Views.{placed_of, placed_in, Ends, Rooted};

use policy::limits::ROWS;
use policy::row::Row;
use policy::table::Table;
use relations::entity;

// Two roots for each row: root(s), then root(d).
// As it is: one run of bytes, as `placed_in` and `chains_in` read it.
pub type Roots = [u8; 2 * ROWS];

// A row, root(s) and root(d).
#[derive(Clone, Copy)]
pub struct Placed {
    pub row: Row,
    pub from: u8,
    pub to: u8,
}

// Row i with its roots.
pub fn placed_at(t: &Table, roots: &Roots, i: usize) -> Placed
    requires { i < most_rows }
    ensures { placed_of result ≡ placed_in t.now.heads t.now.bounds roots.now i }
{
    Placed {
        row: t.row(i),
        from: roots[2 * i],
        to: roots[2 * i + 1],
    }
}

// The roots of the sources and destinations of the table's rows; past them zeros.
pub fn roots_of(t: &Table) -> Roots
    requires { Parents t.now.parents × (t.now.rows ≤ most_rows) × Ends t.now.heads t.now.bounds t.now.rows }
    ensures { Rooted t.now.parents t.now.heads t.now.bounds t.now.rows result }
{
    let mut roots = [0u8; 2 * ROWS];
    for i in 0..t.rows {
        let r = t.row(i);
        roots[2 * i] = entity::root(&t.parents, r.source);
        roots[2 * i + 1] = entity::root(&t.parents, r.destination);
    }
    roots
}
