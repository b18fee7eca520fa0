// What the benchmark calls: a text and rows' numbers in, a number out.
#![tactic(auto)]

ghost use Rattle.std.specs.Prelude.{◌≡◌};
ghost use Rattle.reader.specs.States.{parse};
ghost use Rattle.calls.specs.Views.{witness_answer};
ghost use Rattle.mesh_call.specs.Calls.{mesh_of};
ghost use Rattle.analyser.specs.Calls.{check_of, witness_of, packed, strike_of, strike_written, join_of, join_written, prefixes_of, prefixes_written};
ghost use Rattle.timed.specs.Codes.{check_code, witness_code};

use calls::Witness;

// 0 if the text is accepted, else 1.
#[unsafe(no_mangle)]
pub extern "C" fn timed_check(text: &[u8]) -> u64
    ensures { result ≡ check_code (check_of (parse text.now)) }
{
    match analyser::check(text) {
        Ok(_) => 0,
        Err(_) => 1,
    }
}

// 0 for a packet, 1 for a dead row, 2 for a refusal.
fn code(answer: Witness) -> u64
    ensures { result ≡ witness_code (witness_answer answer) }
{
    match answer {
        Witness::Packet(_) => 0,
        Witness::Dead => 1,
        Witness::Refused { number: _, line: _ } => 2,
    }
}

// Witness's answer of row k as a number.
#[unsafe(no_mangle)]
pub extern "C" fn timed_witness(text: &[u8], k: usize) -> u64
    ensures { result ≡ witness_code (witness_of (parse text.now) k) }
{
    code(analyser::witness_of(text, k))
}

// Mesh's answer of row k as a number.
#[unsafe(no_mangle)]
pub extern "C" fn timed_mesh(text: &[u8], k: usize) -> u64
    ensures { result ≡ witness_code (mesh_of (parse text.now) k) }
{
    code(mesh_call::mesh_of(text, k))
}

// The length of the struck text, or the refusal as one number. Writes what Strike writes.
#[unsafe(no_mangle)]
pub extern "C" fn timed_strike(text: &[u8], out: &mut [u8]) -> u64
    ensures answers { result ≡ packed (strike_of text.now (parse text.now) out.old) }
    ensures writes { out.new ≡ strike_written text.now (parse text.now) out.old }
{
    analyser::packed_count(analyser::strike(text, out))
}

// The length of the line of rows i and j joined, or the refusal as one number. Writes what Join writes.
#[unsafe(no_mangle)]
pub extern "C" fn timed_join(text: &[u8], i: usize, j: usize, out: &mut [u8]) -> u64
    ensures answers { result ≡ packed (join_of (parse text.now) i j out.old) }
    ensures writes { out.new ≡ join_written (parse text.now) i j out.old }
{
    analyser::packed_count(analyser::join(text, i, j, out))
}

// The count of the prefixes of a side of row k, or the refusal as one number. Writes what Prefixes writes.
#[unsafe(no_mangle)]
pub extern "C" fn timed_prefixes(text: &[u8], k: usize, side: u8, out: &mut [u8]) -> u64
    ensures answers { result ≡ packed (prefixes_of (parse text.now) k side out.old) }
    ensures writes { out.new ≡ prefixes_written (parse text.now) k side out.old }
{
    analyser::packed_count(analyser::prefixes(text, k, side, out))
}
