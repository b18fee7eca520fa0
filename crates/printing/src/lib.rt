// What the programs rowlist and strike print of their input, from slice to slice. Each function writes to the start of out, if there is room
// for all that it has to write, and returns how many bytes; the rest of out is unchanged. If there is no room it writes nothing, and says so.
#![tactic(auto)]

pub mod limits;

ghost use Rattle.reader.specs.States.{parse};
ghost use Rattle.printing.specs.Printed.{refusal_line, hex_lines, list_printed, struck_printed, rowlist_prints, strike_prints, Prints};

use base::{Short, Written};
use frames::refusals::{Reason, Refusal};
use limits::{INPUT, LINE_BYTES};
use listing::limits::{ENTRY_BYTES, LIST_BYTES};

// Writes the text.
fn put(text: &[u8], out: &mut [u8]) -> Written
    ensures { Prints text.now out.old out.new result }
{
    if out.len() < text.len() {
        return Err(Short);
    }
    out[..text.len()].copy_from_slice(text);
    Ok(text.len())
}

// Writes the line that a refusal prints.
fn put_refusal(r: Refusal, out: &mut [u8]) -> Written
    ensures { Prints (refusal_line r.number r.line) out.old out.new result }
{
    let mut text = [b'!', 0, 0, 0, 0, b'\n'];
    hexlines::put(&[r.number, r.line], &mut text, 1);
    put(&text, out)
}

// Writes the lines of the entries whose bytes are given.
fn put_entries(entries: &[u8], out: &mut [u8]) -> Written
    ensures { Prints (hex_lines entries.now) out.old out.new result }
{
    let count = entries.len() / ENTRY_BYTES;
    if out.len() / LINE_BYTES < count {
        return Err(Short);
    }
    for i in 0..count {
        let at = ENTRY_BYTES * i;
        let line = LINE_BYTES * i;
        hexlines::put(&entries[at..at + ENTRY_BYTES], out, line);
        out[line + 2 * ENTRY_BYTES] = b'\n';
    }
    Ok(LINE_BYTES * count)
}

// What is printed of a text's list: each entry's line, or the refusal's.
pub fn put_list(text: &[u8], out: &mut [u8]) -> Written
    ensures { Prints (list_printed (parse text.now)) out.old out.new result }
{
    let mut entries = [0u8; LIST_BYTES];
    match analyser::list(text, &mut entries) {
        Ok(n) => put_entries(&entries[..ENTRY_BYTES * n], out),
        Err(r) => put_refusal(r, out),
    }
}

// What rowlist prints of the input: what is printed of its list, or that the input is too long.
// As it is: a function beside `strike`, with its test; one for both would be handed `put_list` or `put_struck`, in as many lines.
pub fn rowlist(input: &[u8], out: &mut [u8]) -> Written
    ensures { Prints (rowlist_prints input.now) out.old out.new result }
{
    if INPUT < input.len() {
        return put(b"!00\n", out);
    }
    put_list(input, out)
}

// What is printed of a struck text: the text, or the refusal's line.
pub fn put_struck(text: &[u8], out: &mut [u8]) -> Written
    ensures { Prints (struck_printed text.now (parse text.now)) out.old out.new result }
{
    match analyser::strike(text, out) {
        Ok(n) => Ok(n),
        Err(r) => {
            if r.number == Reason::ShortOutput.number() {
                return Err(Short);
            }
            put_refusal(r, out)
        }
    }
}

// What strike prints of the input: what is printed of the struck text, or that the input is too long.
pub fn strike(input: &[u8], out: &mut [u8]) -> Written
    ensures { Prints (strike_prints input.now) out.old out.new result }
{
    if INPUT < input.len() {
        return put(b"!00\n", out);
    }
    put_struck(input, out)
}
