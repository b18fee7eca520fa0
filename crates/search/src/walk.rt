// A walk through the fields, from any of them on and round to those before it: candidates field by field, and covers of those that came to nothing. The
// bounds of all selectors are lent, and left unchanged.
ghost use Rattle.std.specs.Prelude.{◌≡◌, map, ◌<◌};
ghost use Rattle.std.specs.Option.{unwrap_or};
ghost use Rattle.policy.specs.Limits.{field_count, most_selectors};
ghost use Rattle.policy.specs.Views.{value, selector_in};
ghost use Rattle.covers.specs.Views.{boxes_at, BoxNumbers, next_of};
ghost use Rattle.search.specs.Search.{search as searched};
ghost use Rattle.search.specs.Covers.{opening as opening_of};
ghost use Rattle.search.specs.Turns.{turned, Tells};

use crate::kept::Kept;
use crate::reach;
use covers::set::Field;
use covers::{Boxes, set};
use policy::limits::FIELDS;
use policy::number::Number;
use policy::table;
use policy::table::Bounds;

// The values of the fields, in the order of the walk.
#[derive(Clone, Copy)]
pub struct Values {
    pub first: Number,
    pub second: Number,
    pub third: Number,
    pub fourth: Number,
    pub fifth: Number,
}

// How a walk ends: with the least packet, in its order of the fields, that no box has; with each packet in a box; or stopped by its limit.
#[derive(Clone, Copy)]
pub enum Ended {
    Free(Values),
    Covered,
    Stopped,
}

// What a field begins with: a cover that is known, and no candidate; or no boxes, and the row's low.
fn opening(known: Option<u64>, low: Number) -> (u64, Option<Number>)
    ensures cover { result.0 ≡ unwrap_or known 0 }
    ensures first { next_of result.1 ≡ opening_of known (value low) }
{
    match known {
        Some(cover) => (cover, None),
        None => (0, Some(low)),
    }
}

// As it is: nested candidate loops over the fields, left by a label, the form that document 01 names.
// Walks through the selector at `row`, from its field `lead` on: candidates field by field, left by the label when the first packet is met that no box of
// the cover has. Of each field, r is the row's range and b the boxes; a is the boxes that hold the packet so far, n the next candidate, and k the cover of
// the values that came to nothing, which is kept for the packets to come. Stops at `limit` values of the fourth field, if there is a limit.
pub fn walk(bounds: &Bounds, row: usize, cover: Boxes, lead: usize, limit: Option<u64>) -> Ended
    requires { (row < most_selectors) × BoxNumbers cover × (lead < field_count) }
    ensures { Tells limit (searched (turned lead (selector_in bounds.now row)) (map (turned lead) (boxes_at bounds.now cover 0))) result }
{
    let f1 = (lead + 1) % FIELDS;
    let f2 = (lead + 2) % FIELDS;
    let f3 = (lead + 3) % FIELDS;
    let f4 = (lead + 4) % FIELDS;
    let r0 = table::range_at(bounds, row, lead);
    let r1 = table::range_at(bounds, row, f1);
    let r2 = table::range_at(bounds, row, f2);
    let r3 = table::range_at(bounds, row, f3);
    let r4 = table::range_at(bounds, row, f4);
    let at = &cover.at;
    let b0 = Field {
        bounds,
        at,
        f: lead,
    };
    let b1 = Field { bounds, at, f: f1 };
    let b2 = Field { bounds, at, f: f2 };
    let b3 = Field { bounds, at, f: f3 };
    let b4 = Field { bounds, at, f: f4 };
    let mut left = limit;
    let a0 = set::first(cover.count);
    let mut kept1 = Kept::new();
    let mut kept2 = Kept::new();
    let mut kept3 = Kept::new();
    let mut kept4 = Kept::new();
    let mut n0 = Some(r0.low);
    'search: loop {
        let Some(v0) = n0 else {
            break 'search Ended::Covered;
        };
        let a1 = b0.holding(v0, a0);
        let (mut k1, mut n1) = opening(kept1.recalled(a1), r1.low);
        while let Some(v1) = n1 {
            let a2 = b1.holding(v1, a1);
            let (mut k2, mut n2) = opening(kept2.recalled(a2), r2.low);
            while let Some(v2) = n2 {
                let a3 = b2.holding(v2, a2);
                let (mut k3, mut n3) = opening(kept3.recalled(a3), r3.low);
                while let Some(v3) = n3 {
                    if let Some(n) = left {
                        if n <= 1 {
                            break 'search Ended::Stopped;
                        }
                        left = Some(n - 1);
                    }
                    let a4 = b3.holding(v3, a3);
                    let (mut k4, mut n4) = opening(kept4.recalled(a4), r4.low);
                    while let Some(v4) = n4 {
                        let Some(k5) = reach::furthest(b4, v4, a4) else {
                            break 'search Ended::Free(Values {
                                first: v0,
                                second: v1,
                                third: v2,
                                fourth: v3,
                                fifth: v4,
                            });
                        };
                        k4 |= k5;
                        n4 = reach::following(b4, k5, r4.high);
                    }
                    kept4.keep(k4);
                    k3 |= k4;
                    n3 = reach::following(b3, k4, r3.high);
                }
                kept3.keep(k3);
                k2 |= k3;
                n2 = reach::following(b2, k3, r2.high);
            }
            kept2.keep(k2);
            k1 |= k2;
            n1 = reach::following(b1, k2, r1.high);
        }
        kept1.keep(k1);
        n0 = reach::following(b0, k1, r0.high);
    }
}
