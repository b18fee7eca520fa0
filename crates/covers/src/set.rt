// Sets of boxes, by the places of a list: bit k for the box at place k.
ghost use Rattle.std.specs.Prelude.{◌≡◌, ◌-◌, ◌^◌, ◌≤◌, ◌<◌, get_or};
ghost use Rattle.std.specs.Iterator.{at_most};
ghost use Rattle.policy.specs.Limits.{field_count, most_rows, most_selectors};
ghost use Rattle.policy.specs.Views.{value, range_of};
ghost use Rattle.covers.specs.Sets.{In, Numbered, field_of, Narrowed, Steps};

use policy::limits::ROWS;
use policy::number::Number;
use policy::selector::Range;
use policy::table;
use policy::table::Bounds;
use relations::range;

// The numbers of the boxes' selectors, in order.
pub type Numbers = [u8; ROWS];

// The first `count` boxes.
pub fn first(count: usize) -> u64
    requires { count ≤ most_rows }
    ensures { result ≡ 2 ^ count - 1 }
{
    u64::MAX.checked_shr(u64::BITS - count as u32).unwrap_or(0)
}

// The places of the boxes of a set, ascending.
#[derive(Drop)]
pub struct Bits(pub u64);

impl Iterator for Bits {
    type Item = usize;

    ghost next_gives = { λ s r t. Steps s.0 r t.0 };

    ghost remaining = { λ s. at_most s.0 };

    fn next(&mut self) -> Option<usize> {
        let rest = self.0;
        if rest == 0 {
            return None;
        }
        self.0 = rest & (rest - 1);
        Some(rest.trailing_zeros() as usize)
    }
}

// A field of listed boxes: the bounds of all selectors, the boxes' numbers, and the field's. What is lent is left unchanged.
#[derive(Clone, Copy, Drop)]
pub struct Field<'a> {
    pub bounds: &'a Bounds,
    pub at: &'a Numbers,
    pub f: usize,
}

impl<'a> Field<'a> {
    // The range of the box at place j in the field.
    pub fn range(self, j: usize) -> Range
        requires { (self.f < field_count) × (j < most_rows) × (get_or self.at.now j 0 < most_selectors) }
        ensures { range_of result ≡ field_of self.entry.bounds.now self.entry.at.now self.entry.f j }
    {
        table::range_at(self.bounds, self.at[j] as usize, self.f)
    }

    // The boxes of the set whose range holds v.
    pub fn holding(self, v: Number, set: u64) -> u64
        requires { (self.f < field_count) × Numbered self.at.now set }
        ensures { Narrowed (field_of self.entry.bounds.now self.entry.at.now self.entry.f) (In set) (value v) (In result) }
    {
        let mut held = 0;
        for j in Bits(set) {
            held |= u64::from(range::holds(self.range(j), v)) << j;
        }
        held
    }
}
