// What the frames of a table say: entities, coefficients, filters and rows.
ghost use Rattle.std.specs.Prelude.{◌≡◌, ◌≤◌, length, take};
ghost use Rattle.policy.specs.Limits.{most_gateways};
ghost use Rattle.policy.specs.Views.{row_of};

use crate::limits::GATEWAYS;
use crate::selector::Selector;

#[derive(Clone, Copy, Debug, PartialEq, Eq)]
pub struct Entity {
    // As it is: a root's parent is the number NO_PARENT, since frames::entity::read promises the entity of any bytes.
    pub parent: u8,
    pub layer: u8,
    pub mask: u8,
}

#[derive(Clone, Copy, Debug, PartialEq, Eq)]
pub struct Coefficients {
    pub header: u8,
    pub payload: u8,
    pub confidentiality: u8,
}

// The root drops packets in the selector, or passes them, by the action.
#[derive(Clone, Copy, Debug, PartialEq, Eq)]
pub struct Filter {
    pub root: u8,
    pub selector: Selector,
    // As it is: the action's byte, since frames::filter::read promises the filter of any bytes.
    pub action: u8,
}

// Room for the gateways of a row.
pub type Gateways = [u8; GATEWAYS];

// The gateways are the first `count` of the array.
#[derive(Clone, Copy, Debug, PartialEq, Eq)]
pub struct Row {
    pub holder: u8,
    pub source: u8,
    pub destination: u8,
    pub technology: u8,
    pub coefficients: Coefficients,
    pub selector: Selector,
    // As it is: an array and its length, since a row is copied and there is no heap.
    pub count: u8,
    pub gateways: Gateways,
}

impl Row {
    // How many gateways the row has: as many as it counts, and no more than there is room for.
    pub fn gateway_count(self) -> usize
        ensures { (result ≡ length (take self.count self.gateways)) × (result ≤ most_gateways) }
    {
        usize::from(self.count).min(GATEWAYS)
    }

    // The row's gateways.
    pub fn gateway_list(&self) -> &[u8]
        ensures { result.now ≡ (row_of self.now).gateways }
    {
        &self.gateways[..self.gateway_count()]
    }
}
