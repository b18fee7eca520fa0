// The cuts of a row's field: before each low and after each high of boxes, inside the row's range. The bounds are lent, and left unchanged.
ghost use Rattle.std.specs.Prelude.{◌≡◌, ◌+◌, ◌<◌, length, get_or};
ghost use Rattle.policy.specs.Limits.{field_count};
ghost use Rattle.policy.specs.Views.{value, range_of};
ghost use Rattle.relations.specs.Ranges.{Within};
ghost use Rattle.covers.specs.Views.{next_of};
ghost use Rattle.mesh.specs.Promises.{Cut};
ghost use Rattle.mesh.specs.Views.{with_cut, Nearest, fields_of, cuts_of, AskedField, Written};

use crate::Mesh;
use covers::set;
use covers::set::Field;
use policy::limits::{FIELDS, ROWS};
use policy::number::Number;
use policy::selector::Range;
use policy::table;

// How many cuts a field has at most: its row's low, and two of each box.
pub const CUTS: usize = 2 * ROWS + 1;

// The set of boxes that have each interval of a field, and those of all fields.
pub type FieldSets = [u64; CUTS];

pub type Sets = [FieldSets; FIELDS];

// The nearest cut after v, with the one before x, if that is in the range.
fn with_cut(next: Option<Number>, r: Range, v: Number, x: Number) -> Option<Number>
    ensures { next_of result ≡ with_cut (range_of r) (value v) (value x) (next_of next) }
{
    if x.at_most(v) || !x.at_most(r.high) {
        return next;
    }
    Some(next.map_or(x, |w| w.lesser(x)))
}

// The nearest cut after v, with the one after high, if that is in the range.
fn with_high(next: Option<Number>, r: Range, v: Number, high: Number) -> Option<Number>
    ensures { next_of result ≡ with_cut (range_of r) (value v) (value high + 1) (next_of next) }
{
    if !r.high.at_most(high) {
        return with_cut(next, r, v, high.next(r.high));
    }
    next
}

impl Mesh<'_> {
    // The cut after v of field f, of which r is the row's range.
    fn after(&self, f: usize, r: Range, v: Number) -> Option<Number>
        requires { (f < field_count) × Within (range_of r) (value v) }
        ensures { Nearest (Cut (range_of r) (fields_of self.now f)) (value v) (next_of result) }
    {
        let mut next = None;
        for &i in &self.boxes.at[..self.boxes.count] {
            let q = table::range_at(self.bounds, i as usize, f);
            next = with_high(with_cut(next, r, v, q.low), r, v, q.high);
        }
        next
    }

    // Cut i of field f.
    pub fn nth(&self, f: usize, i: usize) -> Number
        requires { AskedField self.now f × (i < length (cuts_of self.now f)) }
        ensures { value result ≡ get_or (cuts_of self.now f) i 0 }
    {
        let r = table::range_at(self.bounds, self.row, f);
        let mut v = r.low;
        for _ in 0..i {
            v = self.after(f, r, v).unwrap_or(v);
        }
        v
    }

    // Writes the sets of the intervals of field f, and nothing past them. Returns how many cuts there are.
    pub fn fill(&self, f: usize, sets: &mut FieldSets) -> usize
        requires { AskedField self.now f }
        ensures { Written self.now f sets.old sets.new result }
    {
        let r = table::range_at(self.bounds, self.row, f);
        let field = Field {
            bounds: self.bounds,
            at: &self.boxes.at,
            f,
        };
        let all = set::first(self.boxes.count);
        let mut n = 0;
        let mut next = Some(r.low);
        // As it is: a `for` over the places would end twice, where there is no next cut and past the last place.
        while let Some(v) = next {
            sets[n] = field.holding(v, all);
            next = self.after(f, r, v);
            n += 1;
        }
        n
    }
}
