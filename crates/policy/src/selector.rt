// Ranges, selectors and packets.
ghost use Rattle.policy.specs.Fields.{OfEach, OfBoth};

use crate::number::Number;

#[derive(Clone, Copy, Debug, PartialEq, Eq)]
pub struct Range {
    pub low: Number,
    pub high: Number,
}

// One thing for each field.
#[derive(Clone, Copy, Debug, PartialEq, Eq)]
pub struct Fields<T> {
    pub source_address: T,
    pub destination_address: T,
    pub source_port: T,
    pub destination_port: T,
    pub protocol: T,
}

// Document 01's box: a range for each field.
pub type Selector = Fields<Range>;

// A number for each field.
pub type Packet = Fields<Number>;

impl<T: Copy> Fields<T> {
    // What f makes of each field's.
    pub fn map<U, F: Fn(T) -> U>(self, f: F) -> Fields<U>
        requires { F.IsAlwaysCallable f }
        ensures { OfEach (F.post f) self result }
    {
        Fields {
            source_address: f(self.source_address),
            destination_address: f(self.destination_address),
            source_port: f(self.source_port),
            destination_port: f(self.destination_port),
            protocol: f(self.protocol),
        }
    }

    // What f makes of each field's and the same field's of the other.
    pub fn zip<U: Copy, V, F: Fn(T, U) -> V>(self, other: Fields<U>, f: F) -> Fields<V>
        requires { F.IsAlwaysCallable f }
        ensures { OfBoth (F.post f) self other result }
    {
        Fields {
            source_address: f(self.source_address, other.source_address),
            destination_address: f(self.destination_address, other.destination_address),
            source_port: f(self.source_port, other.source_port),
            destination_port: f(self.destination_port, other.destination_port),
            protocol: f(self.protocol, other.protocol),
        }
    }
}
