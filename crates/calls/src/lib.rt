// What calls on a row have in common: the table of a text that has the row, and the answer that Witness and Mesh give.
#![tactic(auto)]

ghost use Rattle.std.specs.Prelude.{◌≡◌};
ghost use Rattle.reader.specs.States.{parse};
ghost use Rattle.reader.specs.Views.{Parses};
ghost use Rattle.covers.specs.Views.{result_of};
ghost use Rattle.calls.specs.Rows.{with_row};
ghost use Rattle.calls.specs.Views.{answer_of, witness_answer};

use frames::refusals::{Reason, Refusal, keep};
use policy::selector::Packet;
use policy::table::Table;

// What Witness and Mesh answer: that the row is dead, its least packet, or a refusal.
// As it is: the enum that document 01 names, with these three cases.
#[derive(Clone, Copy)]
pub enum Witness {
    Dead,
    Packet(Packet),
    Refused { number: u8, line: u8 },
}

impl From<Result<Option<Packet>, Refusal>> for Witness {
    ghost from_gives = { λ found w. witness_answer w ≡ answer_of result_of found };

    fn from(found: Result<Option<Packet>, Refusal>) -> Witness {
        match found {
            Ok(Some(p)) => Witness::Packet(p),
            Ok(None) => Witness::Dead,
            Err(r) => Witness::Refused {
                number: r.number,
                line: r.line,
            },
        }
    }
}

// The table of a text that has a row k, or the refusal: the text's, or that there is no such row. The text is unchanged.
pub fn table_with(text: &[u8], k: usize) -> Result<Table, Refusal>
    ensures { Parses result (with_row (parse text.now) k) }
{
    let t = reader::read(text)?;
    keep(k < t.rows, Reason::NoSuchRow)?;
    Ok(t)
}
