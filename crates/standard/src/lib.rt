// The programs' standard input and standard output. What fails is told by a line on standard error.
#![tactic(auto)]

ghost use Rattle.std.specs.Prelude.{◌≡◌, ◌<◌, ◌≤◌, ◌++◌, length, take, slice_range, IfOk};
ghost use Rattle.std.specs.Io.KnownBytes.{Appends, Consumes, IsAtEnd};
ghost use Rattle.standard.specs.Moved.{moved};

use std::io;
use std::io::{Cursor, Read, Write};

// A read or a write failed: how many bytes were moved before it, and why it failed.
#[derive(Clone, Copy)]
pub struct Broken {
    pub length: usize,
    pub why: io::Error,
}

// Room for any of the system's reasons, with what the library writes after it.
const REASON: usize = 256;

// What the library writes after the system's own words, before the error's number.
const NUMBER: &str = " (os error ";

// Writes a line to standard error: what failed, as the caller names it, a colon and why.
pub fn tell(rt: &HostRuntime, what: &[u8], why: io::Error) {
    let mut bytes = [0u8; REASON];
    let mut end = Cursor::new(&mut bytes[..]);
    let _ = write!(end, "{why}");
    let length = (end.position() as usize).min(REASON);
    let reason = match str::from_utf8(&bytes[..length]) {
        Ok(text) => text.split_once(NUMBER).map_or(text, |parts| parts.0),
        Err(_) => "",
    };
    let to = rt.stderr();
    let _ = to.write_all(what);
    let _ = to.write_all(b": ");
    let _ = to.write_all(reason.as_bytes());
    let _ = to.write_all(b"\n");
}

// Reads once from reader, into buffer from place n on. The bytes that are read leave the reader, whatever follows; where it gives none and no read
// failed, it is at its end.
fn read_at<R: Read>(reader: &mut R, buffer: &mut [u8], n: usize) -> Result<usize, Broken>
    requires { n ≤ length buffer.old }
    ensures low { n ≤ moved result }
    ensures high { moved result ≤ length buffer.old }
    ensures part { take (moved result) buffer.new ≡ take n buffer.old ++ slice_range buffer.new n (moved result) }
    ensures bytes { Consumes (R.remaining reader.old) (R.remaining reader.new) (slice_range buffer.new n (moved result)) }
    ensures end { IfOk result (λ m. m ≡ n → n < length buffer.old → IsAtEnd (R.remaining reader.new)) }
{
    match reader.read(&mut buffer[n..]) {
        Ok(count) => Ok(n + count),
        Err(why) => Err(Broken { length: n, why }),
    }
}

// Reads into buffer from its start, until buffer is full, the reader ends or a read fails. What stands in buffer then are the bytes that have left the
// reader. Each read's own answer tells the end from a failure.
pub fn fill<R: Read>(reader: &mut R, buffer: &mut [u8]) -> Result<usize, Broken>
    ensures fits { moved result ≤ length buffer.new }
    ensures part { moved result ≡ length (take (moved result) buffer.new) }
    ensures bytes { Consumes (R.remaining reader.old) (R.remaining reader.new) (take (moved result) buffer.new) }
    ensures end { IfOk result (λ n. n < length buffer.new → IsAtEnd (R.remaining reader.new)) }
{
    let mut n = 0;
    while n < buffer.len() {
        let end = read_at(reader, buffer, n)?;
        if end == n {
            return Ok(n);
        }
        n = end;
    }
    Ok(n)
}

// Reads standard input into buffer, as `fill` does. A read that fails is told.
pub fn read(rt: &HostRuntime, buffer: &mut [u8]) -> Result<usize, Broken>
    ensures fits { moved result ≤ length buffer.new }
    ensures part { moved result ≡ length (take (moved result) buffer.new) }
{
    let filled = fill(&mut rt.stdin(), buffer);
    if let Err(broken) = filled {
        tell(rt, b"standard input", broken.why);
    }
    filled
}

// Writes once to writer, of text from place n on. What was written stands behind what the writer held; a write that takes nothing counts as failed.
fn write_at<W: Write>(writer: &mut W, text: &[u8], n: usize) -> Result<usize, Broken>
    requires { n < length text.now }
    ensures low { IfOk result (λ m. n < m) }
    ensures high { moved result ≤ length text.now }
    ensures part { take (moved result) text.now ≡ take n text.now ++ slice_range text.now n (moved result) }
    ensures bytes { Appends (W.contents writer.old) (W.contents writer.new) (slice_range text.now n (moved result)) }
{
    match writer.write(&text[n..]) {
        Ok(0) => Err(Broken {
            length: n,
            why: io::Error::from(io::ErrorKind::WriteZero),
        }),
        Ok(count) => Ok(n + count),
        Err(e) => Err(Broken { length: n, why: e }),
    }
}

// Writes text, until all of it is written or a write fails. What was written of it, from its start, stands behind what the writer held.
pub fn put<W: Write>(writer: &mut W, text: &[u8]) -> Result<usize, Broken>
    ensures fits { moved result ≤ length text.now }
    ensures bytes { Appends (W.contents writer.old) (W.contents writer.new) (take (moved result) text.now) }
    ensures whole { IfOk result (λ n. n ≡ length text.now) }
{
    let mut n = 0;
    while n < text.len() {
        n = write_at(writer, text, n)?;
    }
    Ok(n)
}

// Writes text to standard output, as `put` does. Where a write fails, it is told, and some of text may have been written.
pub fn print(rt: &HostRuntime, text: &[u8]) {
    if let Err(broken) = put(&mut rt.stdout(), text) {
        tell(rt, b"standard output", broken.why);
    }
}
