// Selectors and packets. Every relation of selectors is one of their lowest and highest packets, field by field.
ghost use Rattle.std.specs.Prelude.{◌≡◌};
ghost use Rattle.policy.specs.Views.{selector_of, packet_of};
ghost use Rattle.relations.specs.Selectors.{lows, highs, none_above, holds as holds_test, contains as contains_test, overlaps as overlaps_test, inhabited as inhabited_test, meet as meet_of, hull as hull_of, exchange, same_selector};

use crate::range;
use policy::selector::{Packet, Selector};

// The packet of the lows.
fn lowest(s: Selector) -> Packet
    ensures { packet_of result ≡ lows (selector_of s) }
{
    s.map(|r| r.low)
}

// The packet of the highs.
fn highest(s: Selector) -> Packet
    ensures { packet_of result ≡ highs (selector_of s) }
{
    s.map(|r| r.high)
}

// Whether no number of p is above that of q in the same field.
fn none_above(p: Packet, q: Packet) -> bool
    ensures { result ≡ none_above (packet_of p) (packet_of q) }
{
    p.source_address.at_most(q.source_address)
        && p.destination_address.at_most(q.destination_address)
        && p.source_port.at_most(q.source_port)
        && p.destination_port.at_most(q.destination_port)
        && p.protocol.at_most(q.protocol)
}

// Whether the packet is in the selector.
#[tactic(auto, using(crate::proofs::Laws::Selectors::holds_ends))]
pub fn holds(s: Selector, p: Packet) -> bool
    ensures { result ≡ holds_test (selector_of s) (packet_of p) }
{
    none_above(lowest(s), p) && none_above(p, highest(s))
}

// Whether every packet of b is in a, where both have packets.
#[tactic(auto, using(crate::proofs::Laws::Selectors::contains_ends))]
pub fn contains(a: Selector, b: Selector) -> bool
    ensures { result ≡ contains_test (selector_of a) (selector_of b) }
{
    none_above(lowest(a), lowest(b)) && none_above(highest(b), highest(a))
}

// Whether some packet is in both, where each has one.
#[tactic(auto, using(crate::proofs::Laws::Selectors::overlaps_ends))]
pub fn overlaps(a: Selector, b: Selector) -> bool
    ensures { result ≡ overlaps_test (selector_of a) (selector_of b) }
{
    none_above(lowest(a), highest(b)) && none_above(lowest(b), highest(a))
}

// Whether the two are the same.
pub fn equals(a: Selector, b: Selector) -> bool
    ensures { result ≡ same_selector (selector_of a) (selector_of b) }
{
    a == b
}

// Whether some packet is in the selector.
#[tactic(auto, using(crate::proofs::Laws::Selectors::inhabited_ends))]
pub fn inhabited(s: Selector) -> bool
    ensures { result ≡ inhabited_test (selector_of s) }
{
    none_above(lowest(s), highest(s))
}

// The selector of the packets that are in both.
#[tactic(auto, unfolding(crate::specs::Selectors::meet))]
pub fn meet(a: Selector, b: Selector) -> Selector
    ensures { selector_of result ≡ meet_of (selector_of a) (selector_of b) }
{
    a.zip(b, range::meet)
}

// The smallest selector that holds both.
#[tactic(auto, unfolding(crate::specs::Selectors::hull))]
pub fn hull(a: Selector, b: Selector) -> Selector
    ensures { selector_of result ≡ hull_of (selector_of a) (selector_of b) }
{
    a.zip(b, range::hull)
}

// The selector with source and destination fields exchanged.
#[tactic(auto, unfolding(crate::specs::Selectors::exchange))]
pub fn exchanged(s: Selector) -> Selector
    ensures { selector_of result ≡ exchange (selector_of s) }
{
    Selector {
        source_address: s.destination_address,
        destination_address: s.source_address,
        source_port: s.destination_port,
        destination_port: s.source_port,
        ..s
    }
}
