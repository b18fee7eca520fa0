// The least packet of a row that no box claims. The bounds of all selectors are lent, and left unchanged; boxes are told by their numbers.
#![tactic(auto)]

pub mod kept;
pub mod reach;
pub mod walk;

ghost use Rattle.std.specs.Prelude.{◌≡◌, ◌<◌};
ghost use Rattle.policy.specs.Limits.{most_selectors};
ghost use Rattle.policy.specs.Views.{packet_of, selector_in};
ghost use Rattle.base.specs.Truths.{Decides};
ghost use Rattle.covers.specs.Least.{none};
ghost use Rattle.covers.specs.Views.{boxes_at, BoxNumbers, result_of};
ghost use Rattle.search.specs.Search.{search as searched};
ghost use Rattle.search.specs.Views.{values_of};

use crate::walk::{Ended, Values};
use covers::Boxes;
use policy::limits::FIELDS;
use policy::selector::Packet;
use policy::table::Bounds;

// The packet of the values of a walk that begins with the first field.
impl From<Values> for Packet {
    ghost from_gives = { λ v p. packet_of p ≡ values_of v };

    fn from(v: Values) -> Packet {
        Packet {
            source_address: v.first,
            destination_address: v.second,
            source_port: v.third,
            destination_port: v.fourth,
            protocol: v.fifth,
        }
    }
}

// The least packet of the selector at `row` that no box of the cover has: what a walk finds that begins with the first field and has no limit.
pub fn search(bounds: &Bounds, row: usize, cover: Boxes) -> Option<Packet>
    requires { (row < most_selectors) × BoxNumbers cover }
    ensures { result_of result ≡ searched (selector_in bounds.now row) (boxes_at bounds.now cover 0) }
{
    match walk::walk(bounds, row, cover, 0, None) {
        Ended::Free(v) => Some(Packet::from(v)),
        Ended::Covered | Ended::Stopped => None,
    }
}

// The limit of the first walk, in values of its fourth field, and the one from which on there is none.
const FIRST_LIMIT: u64 = 64;

const LAST_LIMIT: u64 = 1048576;

// Whether each packet of the selector at `row` is in a box of the cover. Walks begin with each field in turn, with a limit that grows: boxes that take long
// in one order of the fields are soon done with in another.
pub fn hidden(bounds: &Bounds, row: usize, cover: Boxes) -> bool
    requires { (row < most_selectors) × BoxNumbers cover }
    ensures { Decides result (searched (selector_in bounds.now row) (boxes_at bounds.now cover 0) ≡ none) }
{
    let mut lead = 0;
    let mut limit = FIRST_LIMIT;
    while limit < LAST_LIMIT {
        match walk::walk(bounds, row, cover, lead, Some(limit)) {
            Ended::Free(_) => return false,
            Ended::Covered => return true,
            Ended::Stopped => {}
        }
        lead = (lead + 1) % FIELDS;
        limit += limit / 4;
    }
    search(bounds, row, cover).is_none()
}
