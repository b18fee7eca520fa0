// Dead or witness of a row: the search over its cover. The table is lent, and left unchanged.
#![tactic(auto)]

ghost use Rattle.std.specs.Prelude.{◌≡◌};
ghost use Rattle.covers.specs.Views.{result_of};
ghost use Rattle.covers.specs.Covers.{Asked};
ghost use Rattle.verdicts.specs.Verdicts.{verdict_in, is_none};

use policy::selector::Packet;
use policy::table::Table;

// The least packet of row i that no row before it takes, or none where the row is dead.
pub fn judge(t: &Table, i: usize) -> Option<Packet>
    requires { Asked t.now.parents t.now.heads t.now.bounds i }
    ensures { result_of result ≡ verdict_in t.now.parents t.now.heads t.now.bounds i }
{
    search::search(&t.bounds, i, covers::cover(t, i))
}

// Whether row i is dead.
pub fn is_dead(t: &Table, i: usize) -> bool
    requires { Asked t.now.parents t.now.heads t.now.bounds i }
    ensures { result ≡ is_none (verdict_in t.now.parents t.now.heads t.now.bounds i) }
{
    search::hidden(&t.bounds, i, covers::cover(t, i))
}
