// The frame of a row: holder, source, destination, technology, coefficients, box, the number of gateways, the gateways. An
// address of the box has `address` bytes.
ghost use Rattle.std.specs.Prelude.{◌≡◌, true, ◌∷◌, ◌+◌, ◌*◌, ◌≤◌, length, take, drop};
ghost use Rattle.std.proofs.lemmas.List.Edits.{sets};
ghost use Rattle.base.specs.Checks.{refusal};
ghost use Rattle.base.specs.Outputs.{Writes};
ghost use Rattle.hexlines.specs.Lines.{bytes_of};
ghost use Rattle.policy.specs.Limits.{most_gateways};
ghost use Rattle.policy.specs.Views.{coefficients_of, row_of};
ghost use Rattle.frames.specs.Parts.{most_width, box_of};
ghost use Rattle.frames.specs.Views.{fault_of};
ghost use Rattle.frames.specs.Rows.{count_place, row_length, row_frame, bytes_of_row, line_of_row, row_place, row_numbers, null_rule, row_content};

use crate::refusals::Reason;
use crate::widths::{MOST_WIDTH, PORT, PROTOCOL};
use crate::{numbers, parts, refusals};
use base::{Short, Written};
use policy::limits::{GATEWAYS, ROWS, TECHNOLOGIES};
use policy::row::{Coefficients, Gateways, Row};
use relations::selector;

// The place of the coefficients, and that of the box.
const COEFFICIENTS: usize = 4;

const BOX: usize = 7;

// The kind byte of a row whose addresses are of four bytes.
pub const KIND: u8 = 5;

// The most bytes of a row: its kind byte, what stands before the box, the box, the number of gateways, the gateways.
const ROW_BYTES: usize = 1 + BOX + 4 * MOST_WIDTH + 4 * PORT + 2 * PROTOCOL + 1 + GATEWAYS;

// The place of the number of gateways.
fn count_place(address: usize) -> usize
    requires { address ≤ most_width }
    ensures { result ≡ count_place (box_of address) }
{
    BOX + parts::box_bytes(address)
}

// Whether the part has a row's length, and no more than eight gateways.
#[tactic(auto, using(hexlines::proofs::Laws::Lines::length_bytes_of))]
pub fn has_length(part: &[u8], address: usize) -> bool
    requires { address ≤ most_width }
    ensures { result ≡ row_length (box_of address) (bytes_of part.now) }
{
    let bytes = part.len() / 2;
    let at = count_place(address);
    let n = parts::byte_or_zero(part, at) as usize;
    at < bytes && n <= GATEWAYS && bytes == at + 1 + n
}

// Whether the sequence can go on with a row, after `rows` rows; `floored` is 1 if the floor has been read, else 0.
// As it is: a number, since has_place promises row_place of each.
pub fn has_place(floored: u8, rows: usize) -> bool
    ensures { result ≡ row_place floored rows }
{
    floored == 1 && rows < ROWS
}

// The gateways, n bytes from place at on, and zeros.
fn gateways(part: &[u8], at: usize, n: usize) -> Gateways
    requires { (n ≤ most_gateways) × (2 * (at + n) ≤ length part.now) }
    ensures { take n result ≡ take n (drop at (bytes_of part.now)) }
{
    let mut g = [0u8; GATEWAYS];
    for k in 0..n {
        g[k] = hexlines::u8_at(part, at + k);
    }
    g
}

// The row that the part says.
pub fn read(part: &[u8], address: usize) -> Row
    requires { (row_length (box_of address) (bytes_of part.now) ≡ true) × (address ≤ most_width) }
    ensures { row_of result ≡ row_frame (box_of address) (bytes_of part.now) }
{
    let at = count_place(address);
    let count = hexlines::u8_at(part, at);
    let g = gateways(part, at + 1, count as usize);
    Row {
        holder: hexlines::u8_at(part, 0),
        source: hexlines::u8_at(part, 1),
        destination: hexlines::u8_at(part, 2),
        technology: hexlines::u8_at(part, 3),
        coefficients: parts::coefficients(part, COEFFICIENTS),
        selector: parts::selector(part, BOX, address),
        count,
        gateways: g,
    }
}

// Whether holder, source, destination, technology and gateways are numbers that there are.
#[tactic(auto, unfolding(crate::specs::Rows::row_numbers, crate::specs::Numbers::is_entity))]
fn has_numbers(parents: &[u8], r: Row) -> bool
    ensures { result ≡ row_numbers parents.now (row_of r) }
{
    let n = r.gateway_count();
    numbers::is_root(parents, r.holder)
        && numbers::is_entity(parents.len(), r.source)
        && numbers::is_entity(parents.len(), r.destination)
        && r.technology as usize <= TECHNOLOGIES
        && numbers::all_roots(parents, &r.gateways[..n])
}

// Whether the coefficients are allowed with the technology: NULL has none above 0.
#[tactic(auto, unfolding(crate::specs::Rows::null_rule, crate::specs::Rows::all_zero))]
fn keeps_null_rule(technology: u8, c: Coefficients) -> bool
    ensures { result ≡ null_rule technology (coefficients_of c) }
{
    technology != 0 || c.header == 0 && c.payload == 0 && c.confidentiality == 0
}

// Ok, or why the row is refused, by the first rule that its content breaks. The parents are those of the entities read so far.
#[tactic(auto, unfolding(base::specs::Checks::refusal))]
pub fn broken(parents: &[u8], r: Row) -> Result<(), Reason>
    ensures { fault_of result ≡ refusal (row_content parents.now (row_of r)) }
{
    refusals::keep(has_numbers(parents, r), Reason::BadNumber)?;
    refusals::keep(selector::inhabited(r.selector), Reason::EmptyRange)?;
    let allowed = keeps_null_rule(r.technology, r.coefficients);
    refusals::keep(allowed, Reason::ProtectedNull)
}

// Writes the row's frame, the kind byte first, to the start of bytes, and returns that part of them.
fn write<'a>(r: Row, kind: u8, address: usize, bytes: &'a mut [u8]) -> &'a [u8]
    requires { (address ≤ most_width) × (count_place (box_of address) + 2 + most_gateways ≤ length bytes.old) }
    ensures { result.now ≡ kind ∷ bytes_of_row (box_of address) (row_of r) }
{
    let at = 1 + count_place(address);
    let n = r.gateway_count();
    parts::put_bytes(
        &[
            kind,
            r.holder,
            r.source,
            r.destination,
            r.technology,
            r.coefficients.header,
            r.coefficients.payload,
            r.coefficients.confidentiality,
        ],
        bytes,
        0,
    );
    parts::put_selector(r.selector, address, bytes, 1 + BOX);
    bytes[at] = n as u8;
    parts::put_bytes(&r.gateways[..n], bytes, at + 1);
    &bytes[..at + 1 + n]
}

// Writes the row's line, in capitals and without line feed, to the start of out, if there is room for it. The rest of out is unchanged.
pub fn put_line(r: Row, kind: u8, address: usize, out: &mut [u8]) -> Written
    requires { address ≤ most_width }
    ensures { Writes (line_of_row kind (box_of address) (row_of r)) out.old out.new result }
{
    let mut bytes = [0u8; ROW_BYTES];
    let frame = write(r, kind, address, &mut bytes);
    let length = 2 * frame.len();
    if out.len() < length {
        return Err(Short);
    }
    hexlines::put(frame, out, 0);
    Ok(length)
}
