// The analyser's calls, but for Mesh, which stands in `mesh_call`. Each takes the text of a table, and leaves it unchanged. A text that is refused
// gives its own refusal; else the conditions that a call asks follow in the documents' order: 9, 10, 11, 12, 8.
#![tactic(auto)]

ghost use Rattle.std.specs.Prelude.{◌≡◌};
ghost use Rattle.base.specs.Answers.{refused_by};
ghost use Rattle.reader.specs.States.{parse};
ghost use Rattle.covers.specs.Views.{result_of};
ghost use Rattle.calls.specs.Views.{answer_of};
ghost use Rattle.analyser.specs.Calls.{line_part, witness_of, list_of, list_written, packed, strike_written, join_written, prefixes_written};
ghost use Rattle.analyser.specs.Views.{count_answer};
ghost use Rattle.analyser.specs.CallAnswers.{CheckAnswers, WitnessAnswers, WinnerAnswers, ListAnswers, StrikeAnswers, JoinAnswers, PrefixesAnswers};

use calls::{Witness, table_with};
use frames::refusals::{Reason, Refusal, keep};
use frames::row;
use frames::widths::ADDRESS;
use policy::selector::Packet;
use policy::table;
use prefixes::side;
use prefixes::side::Side;
use relations::group;
use relations::group::Probe;

// What Check counts.
#[derive(Clone, Copy, Debug, PartialEq, Eq)]
pub struct Counts {
    pub entities: usize,
    pub filters: usize,
    pub rows: usize,
}

// Check: the counts of entities, filters and rows of the text's table, or its refusal.
pub fn check(text: &[u8]) -> Result<Counts, Refusal>
    ensures { CheckAnswers (parse text.now) result }
{
    let t = reader::read(text)?;
    Ok(Counts {
        entities: t.entities,
        filters: t.filters,
        rows: t.rows,
    })
}

// Line: the part of the text that is row k's line, without its line feed. The empty part where the text is refused or has no such row.
pub fn line(text: &[u8], k: usize) -> &[u8]
    ensures { result.now ≡ line_part text.now (parse text.now) k }
{
    match table_with(text, k) {
        Ok(t) => {
            let before = table::lines_before(t.entities, t.capped, 1, t.filters);
            reader::lines::nth_line(text, before + k)
        }
        Err(_) => &text[..0],
    }
}

// The least packet for which row k wins the probe with its own source and destination, or none where it is dead.
fn judged(text: &[u8], k: usize) -> Result<Option<Packet>, Refusal>
    ensures { answer_of result_of result ≡ witness_of (parse text.now) k }
{
    let t = table_with(text, k)?;
    Ok(verdicts::judge(&t, k))
}

// Witness: that row k is dead, or the least packet for which it wins the probe with its own source and destination.
pub fn witness_of(text: &[u8], k: usize) -> Witness
    ensures { WitnessAnswers (parse text.now) k result }
{
    Witness::from(judged(text, k))
}

// List: writes the entries of the table's anomalies into out from its start, three bytes each in ascending order: first row, kind, second
// number. Returns their count. The rest of out is unchanged, and all of it where there is a refusal.
pub fn list(text: &[u8], out: &mut [u8]) -> Result<usize, Refusal>
    ensures answers { ListAnswers (parse text.now) out.old result }
    ensures writes { out.new ≡ list_written (parse text.now) out.old }
{
    let t = reader::read(text)?;
    let n = listing::list(&t, out)?;
    Ok(n)
}

// What a number in return is multiplied by, where it is a refusal's.
const REFUSAL_WEIGHT: u64 = 65536;

// A refusal as one number: 65,536 times its number plus its line.
pub fn packed_refusal(r: Refusal) -> u64
    ensures { result ≡ packed (refused_by r.number r.line) }
{
    REFUSAL_WEIGHT * u64::from(r.number) + u64::from(r.line)
}

// The answer of a call that writes, as one number: the count, or the refusal.
pub fn packed_count(answer: Result<usize, Refusal>) -> u64
    ensures { result ≡ packed (count_answer answer) }
{
    match answer {
        Ok(n) => n as u64,
        Err(r) => packed_refusal(r),
    }
}

// Strike: writes the text without its dead rows' lines into out from its start. Returns its length. The rest of out is unchanged, and all of
// it where there is a refusal.
pub fn strike(text: &[u8], out: &mut [u8]) -> Result<usize, Refusal>
    ensures answers { StrikeAnswers text.now (parse text.now) out.old result }
    ensures writes { out.new ≡ strike_written text.now (parse text.now) out.old }
{
    let t = reader::read(text)?;
    let n = striking::strike(text, &t, out)?;
    Ok(n)
}

// Join: writes the line of the row that rows i and j are joined to into out from its start, in capitals and without line feed. Returns its length.
// The rest of out is unchanged, and all of it where there is a refusal.
pub fn join(text: &[u8], i: usize, j: usize, out: &mut [u8]) -> Result<usize, Refusal>
    ensures answers { JoinAnswers (parse text.now) i j out.old result }
    ensures writes { out.new ≡ join_written (parse text.now) i j out.old }
{
    let t = table_with(text, i)?;
    keep(j < t.rows, Reason::NoSuchRow)?;
    let a = t.row(i);
    let b = t.row(j);
    keep(joining::joinable(&t.parents, a, b), Reason::NotJoinable)?;
    let joined = joining::joined(&t.parents, a, b);
    let n = row::put_line(joined, row::KIND, ADDRESS, out)?;
    Ok(n)
}

// Prefixes: writes the prefixes of row k's source addresses (side 0) or destination addresses (side 1) into out from its start, ascending: four bytes
// of the address, most significant first, and the length. Returns their count. The rest of out is unchanged, and all of it where there is a refusal.
pub fn prefixes(text: &[u8], k: usize, side: u8, out: &mut [u8]) -> Result<usize, Refusal>
    ensures answers { PrefixesAnswers (parse text.now) k side out.old result }
    ensures writes { out.new ≡ prefixes_written (parse text.now) k side out.old }
{
    let t = table_with(text, k)?;
    let Ok(of) = Side::try_from(side) else {
        return Err(Refusal::from(Reason::NoSuchSide));
    };
    let range = side::addresses(table::selector_at(&t.bounds, k), of);
    let n = prefixes::put(range, prefixes::ADDRESS_BYTES, out)?;
    Ok(n)
}

// Winner: the row that wins the probe in the group that row k names, or nobody.
pub fn winner_of(text: &[u8], k: usize, p: Probe) -> Result<Option<usize>, Refusal>
    ensures { WinnerAnswers (parse text.now) k p result }
{
    let t = table_with(text, k)?;
    keep((p.source as usize) < t.entities, Reason::NoSuchEntity)?;
    keep((p.destination as usize) < t.entities, Reason::NoSuchEntity)?;
    Ok(group::winner(&t, k, p))
}
