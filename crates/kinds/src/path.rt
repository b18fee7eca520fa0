// 19, alternative path: the search for a chain of rows.
ghost use Rattle.std.specs.Prelude.{◌≡◌, ◌+◌, ◌≤◌, ◌<◌, length};
ghost use Rattle.policy.specs.Limits.{most_gateways, most_rows};
ghost use Rattle.kinds.specs.Views.{from_in};
ghost use Rattle.kinds.specs.Seen.{goes_on_in, chains_in, alternative_path_in};

use crate::placed::Roots;
use crate::roots::among;
use policy::limits::GATEWAYS;
use policy::selector::Selector;
use policy::table;
use policy::table::Table;
use relations::selector;

// Whether row j goes on from where it begins to a root that is not visited, and shares a packet with s.
#[tactic(auto, unfolding(crate::specs::Tests::goes_on))]
fn goes_on(t: &Table, roots: &Roots, j: usize, visited: &[u8], s: Selector) -> bool
    requires { j < most_rows }
    ensures { result ≡ goes_on_in t.now.bounds roots.now j (from_in roots.now j) visited.now s }
{
    !among(roots[2 * j + 1], visited)
        && selector::inhabited(selector::meet(s, table::selector_at(&t.bounds, j)))
}

// Whether at most `left` rows chain from the root a to the root b, past none that is visited, with a packet of s in all of them: one
// that goes on, and from its end one fewer. Where one is left, those that do not end at b are passed over. The root visited last stands first.
fn chains(t: &Table, roots: &Roots, left: usize, b: u8, a: u8, visited: &[u8], s: Selector) -> bool
    requires { (t.now.rows ≤ most_rows) × (length visited.now + left ≤ most_gateways) }
    ensures { result ≡ chains_in t.now.bounds roots.now t.now.rows left b a visited.now s }
{
    if left == 0 {
        return false;
    }
    for j in 0..t.rows {
        if roots[2 * j] != a {
            continue;
        }
        let to = roots[2 * j + 1];
        if left == 1 && to != b {
            continue;
        }
        if !goes_on(t, roots, j, visited, s) {
            continue;
        }
        if to == b {
            if left < 4 {
                return true;
            }
            continue;
        }
        let m = selector::meet(s, table::selector_at(&t.bounds, j));
        // `to`, and then those that were visited before
        let mut grown = [to; GATEWAYS];
        grown[1..=visited.len()].copy_from_slice(visited);
        if chains(t, roots, left - 1, b, to, &grown[..=visited.len()], m) {
            return true;
        }
    }
    false
}

// 19, alternative path: two to four rows chain from root(s) to root(d) of row i, each beginning at the root where the former ends, no root visited
// twice, one packet of S in all their boxes. The number of rows still allowed falls from four.
#[tactic(auto, unfolding(crate::specs::Tests::alternative_path))]
pub fn alternative_path(t: &Table, roots: &Roots, i: usize) -> bool
    requires { (t.now.rows ≤ most_rows) × (i < most_rows) }
    ensures { result ≡ alternative_path_in t.now.bounds roots.now t.now.rows i }
{
    let from = roots[2 * i];
    let s = table::selector_at(&t.bounds, i);
    chains(t, roots, 4, roots[2 * i + 1], from, &[from], s)
}
