// The sides of a row.
ghost use Rattle.std.specs.Prelude.{◌≡◌};
ghost use Rattle.policy.specs.Views.{range_of, selector_of};
ghost use Rattle.prefixes.specs.Sides.{number_of, side_of, Names};

use policy::selector::{Range, Selector};

// Document 02's sides, by number: 0 the source, 1 the destination.
#[derive(Clone, Copy, Debug, PartialEq, Eq)]
pub enum Side {
    Source = 0,
    Destination = 1,
}

// A number that is no side's.
#[derive(Clone, Copy, Debug, PartialEq, Eq)]
pub struct NoSide;

impl TryFrom<u8> for Side {
    type Error = NoSide;

    ghost try_from_gives = { Names };

    fn try_from(number: u8) -> Result<Side, NoSide> {
        match number {
            0 => Ok(Side::Source),
            1 => Ok(Side::Destination),
            _ => Err(NoSide),
        }
    }
}

// The addresses of a side.
pub fn addresses(s: Selector, side: Side) -> Range
    ensures { range_of result ≡ side_of (number_of side) (selector_of s) }
{
    match side {
        Side::Source => s.source_address,
        Side::Destination => s.destination_address,
    }
}
