// The prefixes of a range of addresses, written to the caller's output.
#![tactic(auto)]

pub mod side;

ghost use Rattle.std.specs.Prelude.{◌≡◌, map, ◌+◌, ◌*◌, ◌-◌, ◌/◌, ◌^◌, ◌≤◌, ◌<◌, ltb, length};
ghost use Rattle.std.proofs.lemmas.List.Edits.{sets};
ghost use Rattle.policy.specs.Views.{value, range_of};
ghost use Rattle.policy.specs.Limits.{number_width};
ghost use Rattle.prefixes.specs.Prefixes.{alone_if, raised, pairs as pairs_of};
ghost use Rattle.prefixes.specs.Bytes.{prefix_bytes, Puts, prefixes_in, Held, Room};

use base::{Short, Written};
use policy::number::Number;
use policy::selector::Range;

// The bytes of an address in a prefix.
pub const ADDRESS_BYTES: usize = 4;

// A range of addresses, and how many bits each has.
#[derive(Clone, Copy)]
struct Addresses {
    range: Range,
    bits: usize,
}

// Whether the range has more than one address.
fn has_more(r: Range) -> bool
    ensures { result ≡ ltb (range_of r).low (range_of r).high }
{
    !r.high.at_most(r.low)
}

// The pairs of addresses that lie in a range of more than one, each by the bits that its two share: all but the last.
fn pairs(a: Addresses) -> Addresses
    requires { Held a × (value a.range.low < value a.range.high) }
    ensures pairs { range_of result.range ≡ pairs_of (range_of a.range) }
    ensures bits { result.bits + 1 ≡ a.bits }
{
    Addresses {
        range: Range {
            low: a.range.low.next(a.range.high).half(),
            high: a.range.high.previous(a.range.low).half(),
        },
        bits: a.bits - 1,
    }
}

// How many prefixes the range has.
fn count(a: Addresses) -> usize
    requires { Held a }
    ensures { result ≡ length (prefixes_in a) }
{
    let mut rest = a;
    let mut n = 0;
    while has_more(rest.range) {
        n += base::bit(rest.range.low.last_bit() == 1) + base::bit(rest.range.high.last_bit() == 0);
        rest = pairs(rest);
    }
    n + base::bit(rest.range.low.at_most(rest.range.high))
}

// Writes a prefix of `bits` bits into out, after `at` others, if it is to be there: n and then zeros, in as many bytes as the addresses of `whole` have,
// and the number of bits. The rest of out is unchanged.
// As it is: the test beside the number, as the definition `alone_if` has them; an Option would be made at three calls to be taken apart here.
fn put_if(there: bool, n: Number, bits: usize, whole: Addresses, out: &mut [u8], at: usize)
    requires { Room there n bits whole out.old at }
    ensures { out.new ≡ sets out.old ((whole.bits / 8 + 1) * at) (prefix_bytes (whole.bits / 8) (map (raised (whole.bits - bits)) (alone_if there bits (value n)))) }
{
    if there {
        let bytes = whole.bits / 8;
        let place = (bytes + 1) * at;
        let address = n.raised(whole.bits - bits, whole.range.high);
        address.put(bytes, out, place);
        out[place + bytes] = bits as u8;
    }
}

// Writes the range's prefixes into out from its start, ascending, if there is room for all: `bytes` bytes of an address, and the length. Returns how many
// there are. The rest of out is unchanged, and all of it where it is too short.
pub fn put(r: Range, bytes: usize, out: &mut [u8]) -> Written
    requires { (value r.high < 2 ^ (8 * bytes)) × (bytes ≤ number_width) }
    ensures { Puts bytes (range_of r) out.old out.new result }
{
    let whole = Addresses {
        range: r,
        bits: 8 * bytes,
    };
    let n = count(whole);
    if out.len() < (bytes + 1) * n {
        return Err(Short);
    }
    let mut rest = whole;
    let mut from = 0;
    let mut to = n;
    while has_more(rest.range) {
        let first = rest.range.low.last_bit() == 1;
        let last = rest.range.high.last_bit() == 0;
        put_if(first, rest.range.low, rest.bits, whole, out, from);
        from += base::bit(first);
        to -= base::bit(last);
        put_if(last, rest.range.high, rest.bits, whole, out, to);
        rest = pairs(rest);
    }
    put_if(
        rest.range.low.at_most(rest.range.high),
        rest.range.low,
        rest.bits,
        whole,
        out,
        from,
    );
    Ok(n)
}
