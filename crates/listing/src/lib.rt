// The entries of a table's anomalies, in order, in the caller's buffer.
#![tactic(auto)]

pub mod limits;
pub mod marks;
pub mod put;

ghost use Rattle.policy.specs.Views.{table_of, Held};
ghost use Rattle.policy.specs.Wellformed.{Wellformed};
ghost use Rattle.kinds.specs.Entries.{entries};
ghost use Rattle.listing.specs.Bytes.{Listing};

use crate::limits::ENTRY_BYTES;
use crate::marks::Marks;
use crate::put::{Block, Writer};
use base::{Short, Written};
use kinds::{numbers, placed};
use policy::limits::ROWS;
use policy::table::Table;

// Writes the table's entries into out from its start, three bytes each, if there is room for all; the rest of out is unchanged, and all of it
// where it is too short. The kinds of rows and filters are marked first, and counted.
pub fn list(t: &Table, out: &mut [u8]) -> Written
    requires { Held t.now × Wellformed (table_of t.now) }
    ensures { Listing (entries (table_of t.now)) out.old out.new result }
{
    let roots = placed::roots_of(t);
    let mut marks = Marks {
        own: [0u32; ROWS],
        pairs: [0u32; ROWS * ROWS],
    };
    let mut n = 0;
    for i in 0..t.rows {
        marks.own[i] = marks::of_row(t, &roots, i);
        marks::of_pairs(t, &roots, i, &mut marks.pairs);
        n += marks.count_row(t.rows, i) as usize;
    }
    n += marks::of_filters(t, &mut marks.pairs) as usize;
    if out.len() < ENTRY_BYTES * n {
        return Err(Short);
    }
    let rows = Block {
        things: t.rows,
        kind: numbers::ROW_KIND,
        kinds: numbers::ROW_KINDS,
    };
    let filters = Block {
        things: t.filters,
        kind: numbers::FILTER_KIND,
        kinds: numbers::FILTER_KINDS,
    };
    let mut writer = Writer { out, n: 0 };
    writer.put_block(&marks, rows);
    writer.put_block(&marks, filters);
    Ok(n)
}
