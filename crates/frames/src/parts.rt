// What several frames have: a length, coefficients, a box.
ghost use Rattle.std.specs.Prelude.{◌≡◌, ◌+◌, ◌*◌, ◌<◌, ◌≤◌, eqb, length, get_or};
ghost use Rattle.std.proofs.lemmas.List.Edits.{sets};
ghost use Rattle.hexlines.specs.Lines.{bytes_of};
ghost use Rattle.policy.specs.Views.{coefficients_of, range_of, selector_of};
ghost use Rattle.frames.specs.Parts.{coefficients_from, range_from, selector_from, bytes_of_range, bytes_of_box, most_width, box_bytes, box_of};

use crate::widths::{PORT, PROTOCOL};
use policy::number::Number;
use policy::row::Coefficients;
use policy::selector::{Range, Selector};

// The byte at a place, or 0 where the part has none.
#[tactic(auto, using(hexlines::proofs::Laws::Lines::length_bytes_of, std::proofs::lemmas::List::get_or_past))]
pub fn byte_or_zero(part: &[u8], at: usize) -> u8
    requires { at < 256 }
    ensures { result ≡ get_or (bytes_of part.now) at 0 }
{
    if at < part.len() / 2 {
        hexlines::u8_at(part, at)
    } else {
        0
    }
}

// Whether the part is `n` bytes.
#[tactic(auto, using(hexlines::proofs::Laws::Lines::length_bytes_of))]
pub fn has_bytes(part: &[u8], n: usize) -> bool
    ensures { result ≡ eqb (length (bytes_of part.now)) n }
{
    part.len() / 2 == n
}

// Three coefficients, from place at on.
pub fn coefficients(part: &[u8], at: usize) -> Coefficients
    requires { 2 * (at + 3) ≤ length part.now }
    ensures { coefficients_of result ≡ coefficients_from at (bytes_of part.now) }
{
    Coefficients {
        header: hexlines::u8_at(part, at),
        payload: hexlines::u8_at(part, at + 1),
        confidentiality: hexlines::u8_at(part, at + 2),
    }
}

// How many bytes a box has, with addresses of `address` bytes.
pub fn box_bytes(address: usize) -> usize
    requires { address ≤ most_width }
    ensures { result ≡ box_bytes (box_of address) }
{
    4 * address + 4 * PORT + 2 * PROTOCOL
}

// The low and the high of a field of `width` bytes, from place at on.
#[tactic(auto, unfolding(crate::specs::Parts::range_from))]
fn range(part: &[u8], at: usize, width: usize) -> Range
    requires { (2 * (at + width + width) ≤ length part.now) × (width ≤ most_width) }
    ensures { range_of result ≡ range_from at width (bytes_of part.now) }
{
    Range {
        low: Number::new(hexlines::number_at(part, at, width)),
        high: Number::new(hexlines::number_at(part, at + width, width)),
    }
}

// The box, with addresses of `address` bytes, from place at on.
pub fn selector(part: &[u8], at: usize, address: usize) -> Selector
    requires { (2 * (at + box_bytes (box_of address)) ≤ length part.now) × (address ≤ most_width) }
    ensures { selector_of result ≡ selector_from at (box_of address) (bytes_of part.now) }
{
    let to = at + 2 * address;
    let ports = to + 2 * address;
    Selector {
        source_address: range(part, at, address),
        destination_address: range(part, to, address),
        source_port: range(part, ports, PORT),
        destination_port: range(part, ports + 2 * PORT, PORT),
        protocol: range(part, ports + 4 * PORT, PROTOCOL),
    }
}

// Writes some bytes into others from place at on. The rest of those is unchanged.
// As it is: byte by byte, since std's `copy_from_slice` is `memmove` where both are the caller's, and an archive for C would want that from outside.
pub fn put_bytes(from: &[u8], bytes: &mut [u8], at: usize)
    requires { at + length from.now ≤ length bytes.old }
    ensures { bytes.new ≡ sets bytes.old at from.now }
{
    for (k, b) in from.iter().enumerate() {
        bytes[at + k] = *b;
    }
}

// Writes the low and the high of a field of `width` bytes into bytes from place at on. The rest of bytes is unchanged.
fn put_range(r: Range, width: usize, bytes: &mut [u8], at: usize)
    requires { (width ≤ most_width) × (at + 2 * width ≤ length bytes.old) }
    ensures { bytes.new ≡ sets bytes.old at (bytes_of_range width (range_of r)) }
{
    r.low.put(width, bytes, at);
    r.high.put(width, bytes, at + width);
}

// Writes the box, with addresses of `address` bytes, into bytes from place at on. The rest of bytes is unchanged.
pub fn put_selector(s: Selector, address: usize, bytes: &mut [u8], at: usize)
    requires { (address ≤ most_width) × (at + box_bytes (box_of address) ≤ length bytes.old) }
    ensures { bytes.new ≡ sets bytes.old at (bytes_of_box (box_of address) (selector_of s)) }
{
    let to = at + 2 * address;
    let ports = to + 2 * address;
    put_range(s.source_address, address, bytes, at);
    put_range(s.destination_address, address, bytes, to);
    put_range(s.source_port, PORT, bytes, ports);
    put_range(s.destination_port, PORT, bytes, ports + 2 * PORT);
    put_range(s.protocol, PROTOCOL, bytes, ports + 4 * PORT);
}
