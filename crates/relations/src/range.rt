// Ranges of numbers: a field of a selector.
ghost use Rattle.std.specs.Prelude.{◌≡◌};
ghost use Rattle.policy.specs.Views.{value, range_of};
ghost use Rattle.relations.specs.Ranges.{within, meet_range, hull_range};

use policy::number::Number;
use policy::selector::Range;

// Whether the number is in the range.
pub fn holds(r: Range, x: Number) -> bool
    ensures { result ≡ within (range_of r) (value x) }
{
    r.low.at_most(x) && x.at_most(r.high)
}

// The range of the numbers that are in both.
pub fn meet(r: Range, q: Range) -> Range
    ensures { range_of result ≡ meet_range (range_of r) (range_of q) }
{
    Range {
        low: r.low.greater(q.low),
        high: r.high.lesser(q.high),
    }
}

// The smallest range that holds both.
// As it is: one function for this and `meet` would be handed `lesser` and `greater` in turn, in as many lines.
pub fn hull(r: Range, q: Range) -> Range
    ensures { range_of result ≡ hull_range (range_of r) (range_of q) }
{
    Range {
        low: r.low.lesser(q.low),
        high: r.high.greater(q.high),
    }
}
