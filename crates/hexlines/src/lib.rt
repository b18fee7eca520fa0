// Hexadecimal lines: digits, bytes and numbers in, digits out. No function here knows a frame.
#![tactic(auto)]

ghost use Rattle.std.specs.Prelude.{◌≡◌, ◌+◌, ◌*◌, ◌/◌, ◌%◌, ◌<◌, ◌≤◌, length, get_or, Some, None, if◌then◌else◌};
ghost use Rattle.std.proofs.lemmas.List.Edits.{sets};
ghost use Rattle.hexlines.specs.Digits.{digit_value, is_digit, byte_of, digit_of};
ghost use Rattle.hexlines.specs.Lines.{is_line, bytes_of, line_of};
ghost use Rattle.hexlines.specs.Numbers.{number_of, field};

// A digit's value, or None for a byte that is no digit. By its last four bits: in 0-9 they are the value, in A-F and in a-f 9 less.
#[tactic(auto, unfolding(crate::specs::Digits::digit_value))]
pub fn digit(c: u8) -> Option<u8>
    ensures { result ≡ (if is_digit c then Some (digit_value c) else None) }
{
    match c {
        b'0'..=b'9' => Some(c % 16),
        b'A'..=b'F' => Some((c + 9) % 16),
        b'a'..=b'f' => Some((c + 9) % 16),
        _ => None,
    }
}

// The byte that a pair of digits stands for.
#[tactic(auto, using(crate::proofs::Laws::Digits::value_or_zero))]
pub fn byte(a: u8, b: u8) -> u8
    ensures { result ≡ byte_of a b }
{
    16 * digit(a).unwrap_or(0) + digit(b).unwrap_or(0)
}

// Whether a line is pairs of digits, at least one pair. Looks at every character, also after one that is no digit: without a way out
// of the loop the compiler takes sixteen at a time.
#[tactic(auto, unfolding(crate::specs::Lines::is_line))]
pub fn is_line(line: &[u8]) -> bool
    ensures { result ≡ is_line line.now }
{
    if line.is_empty() || line.len() % 2 != 0 {
        return false;
    }
    let mut digits = true;
    for c in line {
        digits &= digit(*c).is_some();
    }
    digits
}

// The byte at place i of a line.
#[tactic(auto, using(crate::proofs::Laws::Lines::bytes_of_at))]
pub fn u8_at(line: &[u8], i: usize) -> u8
    requires { 2 * (i + 1) ≤ length line.now }
    ensures { result ≡ get_or (bytes_of line.now) i 0 }
{
    let at = 2 * i;
    byte(line[at], line[at + 1])
}

// The number that all bytes of a part of a line are: at most eight.
#[tactic(auto, using(crate::proofs::Laws::Numbers::line_number_more, crate::proofs::Laws::Numbers::line_number_fits))]
pub fn number(part: &[u8]) -> u64
    requires { length part.now ≤ 16 }
    ensures { result ≡ number_of (bytes_of part.now) }
{
    let mut n = 0;
    for i in 0..part.len() / 2 {
        n = n * 256 + u64::from(u8_at(part, i));
    }
    n
}

// The number that `width` bytes of a line are, from place i on: at most eight.
pub fn number_at(line: &[u8], i: usize, width: usize) -> u64
    requires { (2 * (i + width) ≤ length line.now) × (width ≤ 8) }
    ensures { result ≡ field i width (bytes_of line.now) }
{
    number(&line[2 * i..2 * (i + width)])
}

// The digit of a value below 16, in capitals.
#[tactic(auto, unfolding(crate::specs::Digits::digit_of))]
fn capital(v: u8) -> u8
    requires { v < 16 }
    ensures { result ≡ digit_of v }
{
    if v < 10 { b'0' + v } else { b'A' + (v - 10) }
}

// Writes the digits of the bytes, two for each in capitals, into out from place at on, and leaves the rest of out unchanged.
pub fn put(bytes: &[u8], out: &mut [u8], at: usize)
    requires { at + 2 * length bytes.now ≤ length out.old }
    ensures { out.new ≡ sets out.old at (line_of bytes.now) }
{
    for (k, b) in bytes.iter().enumerate() {
        let place = at + 2 * k;
        out[place] = capital(*b / 16);
        out[place + 1] = capital(*b % 16);
    }
}
