// How far the boxes of a set reach in a field.
ghost use Rattle.std.specs.Prelude.{◌<◌};
ghost use Rattle.policy.specs.Limits.{field_count};
ghost use Rattle.policy.specs.Views.{value};
ghost use Rattle.covers.specs.Sets.{Numbered, field_of};
ghost use Rattle.covers.specs.Views.{next_of};
ghost use Rattle.search.specs.Covers.{high_of, Follows, FurthestIfAny};

use covers::set::{Bits, Field};
use policy::number::Number;

// The candidate after the values of the field that the cover takes: one past the least high of its boxes, if that is below high.
pub fn following(field: Field, cover: u64, high: Number) -> Option<Number>
    requires { (field.f < field_count) × Numbered field.at.now cover }
    ensures { Follows (high_of field.entry.bounds.now field.entry.at.now field.entry.f) cover (value high) (next_of result) }
{
    let mut m = high;
    for j in Bits(cover) {
        m = field.range(j).high.lesser(m);
    }
    if high.at_most(m) {
        return None;
    }
    Some(m.next(high))
}

// Of the boxes of the set whose range holds v, one that reaches furthest, alone; none where none holds it.
pub fn furthest(field: Field, v: Number, set: u64) -> Option<u64>
    requires { (field.f < field_count) × Numbered field.at.now set }
    ensures { FurthestIfAny (field_of field.entry.bounds.now field.entry.at.now field.entry.f) set (value v) result }
{
    let mut best = None;
    let mut top = v;
    for j in Bits(set) {
        let r = field.range(j);
        if r.low.at_most(v) && top.at_most(r.high) {
            best = Some(1 << j);
            top = r.high;
        }
    }
    best
}
