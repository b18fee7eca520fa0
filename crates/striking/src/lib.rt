// Striking the dead rows of a table: its text without their lines, in the caller's output.
#![tactic(auto)]

mod kept;

ghost use Rattle.std.specs.Prelude.{◌≡◌};
ghost use Rattle.policy.specs.Views.{table_of, Held};
ghost use Rattle.policy.specs.Wellformed.{Wellformed};
ghost use Rattle.base.specs.Answers.{returned};
ghost use Rattle.base.specs.Outputs.{Writes};
ghost use Rattle.reader.specs.States.{table_read, parse};
ghost use Rattle.striking.specs.Texts.{struck_text};
ghost use Rattle.striking.specs.Lines.{DeadRows};

use crate::kept::KeptLines;
use base::{Short, Written};
use frames::parts;
use policy::limits::ROWS;
use policy::table;
use policy::table::Table;

// For each row, whether it is dead.
pub type Flags = [bool; ROWS];

// The flags of the table's dead rows.
fn dead_rows(t: &Table) -> Flags
    requires { Held t.now × Wellformed (table_of t.now) }
    ensures { DeadRows (table_of t.now) result }
{
    let mut dead = [false; ROWS];
    for i in 0..t.rows {
        dead[i] = verdicts::is_dead(t, i);
    }
    dead
}

// Writes the text, whose table is t, without its dead rows' lines to the start of out, if there is room for it. The rest of out is unchanged.
pub fn strike(text: &[u8], t: &Table, out: &mut [u8]) -> Written
    requires { Held t.now × (parse text.now ≡ returned (table_read (table_of t.now))) }
    ensures { Writes (struck_text text.now (table_of t.now)) out.old out.new result }
{
    let dead = dead_rows(t);
    let others = table::lines_before(t.entities, t.capped, 1, t.filters);
    let n = KeptLines::of(text, &dead, others)
        .map(|line| line.len() + 1)
        .sum();
    if out.len() < n {
        return Err(Short);
    }
    let mut start = 0;
    for line in KeptLines::of(text, &dead, others) {
        let end = start + line.len();
        parts::put_bytes(line, out, start);
        out[end] = b'\n';
        start = end + 1;
    }
    Ok(n)
}
