// The reader of table texts: a first pass judges each line, and a second one takes the filters and rows of a text that is accepted.
#![tactic(auto)]

ghost use Rattle.std.specs.Prelude.{◌≡◌};
ghost use Rattle.reader.specs.States.{parse};
ghost use Rattle.reader.specs.Views.{Ends, Fillable, Filled, Parses};

pub mod lines;
pub mod state;

use frames::refusals::{Reason, Refusal};
use frames::widths::ADDRESS;
use frames::{filter, row};
use lines::Lines;
use policy::table;
use policy::table::Table;
use state::State;

// The state after the last line of the text, which is accepted; or the refusal of the first line that is refused, or of the text's end.
fn judge(text: &[u8]) -> Result<State, Refusal>
    ensures { Ends text.now result }
{
    let mut state = State::new();
    let mut lines = Lines { unread: text };
    while let Some(line) = lines.next() {
        state = state.next(line);
        if let Some(refusal) = state.refusal {
            return Err(refusal);
        }
    }
    if !lines.unread.is_empty() {
        return Err(state.refusal_by(Reason::NoLine.number()));
    }
    if state.floored {
        return Ok(state);
    }
    Err(state.refusal_by(Reason::OutOfSequence.number()))
}

// Fills the table with that of a text that is accepted: what its state has, and the filters and rows of the lines after the floor's. No line is judged
// again.
// As it is: the table is lent, and not handed back, so that `read` holds it once.
fn fill(text: &[u8], state: State, table: &mut Table)
    requires { Fillable text.now state }
    ensures { Filled text.now state table.new }
{
    let State {
        entities,
        parents,
        layers,
        masks,
        capped,
        caps,
        floor,
        filters,
        rows,
        ..
    } = state;
    table.entities = entities;
    table.parents = parents;
    table.layers = layers;
    table.masks = masks;
    table.capped = capped;
    table.caps = caps;
    table.floor = floor;
    table.filters = filters;
    table.rows = rows;
    let after_floor = Lines::starting_at(text, table::lines_before(entities, capped, 1, 0));
    for (n, line) in after_floor.enumerate() {
        let part = &line[2..];
        if n < filters {
            table::put_filter(
                &mut table.filter_roots,
                &mut table.filter_actions,
                &mut table.bounds,
                n,
                filter::read(part),
            );
        } else {
            table::put_row(
                &mut table.heads,
                &mut table.bounds,
                n - filters,
                row::read(part, ADDRESS),
            );
        }
    }
}

// Reads a whole text: its table, or its refusal.
pub fn read(text: &[u8]) -> Result<Table, Refusal>
    ensures { Parses result (parse text.now) }
{
    let state = judge(text)?;
    let mut table = Table::new();
    fill(text, state, &mut table);
    Ok(table)
}
