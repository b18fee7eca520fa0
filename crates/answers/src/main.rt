// Prints what every call answers. The arguments come in pairs: the name of a table's text, and that of a file of questions, one a line. A question
// of 32 digits is a probe: the row that names the group, the two entities, and the packet (source and destination address, source and destination
// port, protocol). One of 6 digits is a couple: two rows, and the length of an output. One of 8 digits is a side: a row, the side, and the length of
// an output in two bytes, at most 512. A refusal is ! and two digits each of number and line. Of each pair are printed:
// - the text's name, and Check's answer: the counts of entities, filters and rows, two digits each
// - Line's answer for each row, and for one number more
// - List's entries, six digits each
// - Witness's answer for each row, and for one number more: dead, or the packet's digits
// - Mesh's answer for the same numbers, in the same form
// - Strike's text
// - Winner's answer for each probe: the row's two digits, or none
// - Join's answer for each couple: the length's two digits, or the refusal; and all of the output, which had a . at each place before the call
// - Prefixes' answer for each side: the count's two digits, or the refusal; and the digits of all of the output, with a . at each place before the call
#![tactic(auto)]

ghost use Rattle.std.specs.Prelude.{◌≡◌, ◌≤◌, length, take, IfSome};

use analyser::Counts;
use calls::Witness;
use frames::refusals::Refusal;
use frames::widths::{ADDRESS, PORT, PROTOCOL};
use policy::number::Number;
use policy::selector::Packet;
use printing::limits::PRINTED;
use relations::group::Probe;
use std::env::{Env, FillError};
use std::fs::File;
use std::{fs, io};

// How many digits a probe, a couple and a side have.
const PROBE_DIGITS: usize = 32;

const COUPLE_DIGITS: usize = 6;

const SIDE_DIGITS: usize = 8;

// The shortest question, with its line feed.
const QUESTION: usize = COUPLE_DIGITS + 1;

// The longest output that a couple can ask for, and a side.
const JOINED: usize = 255;

const PREFIXES: usize = 512;

// How many bytes a packet's numbers have.
const PACKET: usize = 2 * ADDRESS + 2 * PORT + PROTOCOL;

// Room for a name, and for a file of questions.
const BUFFER: usize = 4096;

// Room for a table's text.
const LARGE_BUFFER: usize = 65536;

// Writes the text to standard output. A write that fails is passed over.
fn put_text(rt: &HostRuntime, text: &[u8]) {
    let _ = rt.write_all(text);
}

// The digits of the bytes, two for each.
fn put_digits(rt: &HostRuntime, bytes: &[u8])
    requires { length bytes.now ≤ 512 }
{
    let mut digits = [0u8; 2 * PREFIXES];
    hexlines::put(bytes, &mut digits, 0);
    put_text(rt, &digits[..2 * bytes.len()]);
}

// A count or a row's number, at most 128.
fn put_count(rt: &HostRuntime, n: usize) {
    put_digits(rt, &[(n % 256) as u8]);
}

fn put_number_and_line(rt: &HostRuntime, r: Refusal) {
    put_text(rt, b"!");
    put_digits(rt, &[r.number, r.line]);
}

fn put_refusal(rt: &HostRuntime, r: Refusal) {
    put_number_and_line(rt, r);
    put_text(rt, b"\n");
}

// Prints the counts. Returns how many rows there are: 0 of a text that is refused.
fn put_check(rt: &HostRuntime, text: &[u8]) -> usize {
    match analyser::check(text) {
        Ok(
            Counts {
                entities,
                filters,
                rows,
            },
        ) => {
            put_count(rt, entities);
            put_count(rt, filters);
            put_count(rt, rows);
            put_text(rt, b"\n");
            rows
        }
        Err(r) => {
            put_refusal(rt, r);
            0
        }
    }
}

fn put_line(rt: &HostRuntime, text: &[u8], k: usize) {
    put_text(rt, analyser::line(text, k));
    put_text(rt, b"\n");
}

fn put_list(rt: &HostRuntime, text: &[u8]) {
    let mut out = [0u8; PRINTED];
    if let Ok(n) = printing::put_list(text, &mut out) {
        put_text(rt, &out[..n]);
    }
}

// The digits of a packet's numbers.
fn put_packet(rt: &HostRuntime, p: Packet) {
    let mut bytes = [0u8; PACKET];
    p.source_address.put(ADDRESS, &mut bytes, 0);
    p.destination_address.put(ADDRESS, &mut bytes, ADDRESS);
    p.source_port.put(PORT, &mut bytes, 2 * ADDRESS);
    p.destination_port.put(PORT, &mut bytes, 2 * ADDRESS + PORT);
    p.protocol.put(PROTOCOL, &mut bytes, 2 * ADDRESS + 2 * PORT);
    put_digits(rt, &bytes);
    put_text(rt, b"\n");
}

// Witness's answer, or Mesh's.
fn put_witness(rt: &HostRuntime, answer: Witness) {
    match answer {
        Witness::Dead => put_text(rt, b"dead\n"),
        Witness::Packet(p) => put_packet(rt, p),
        Witness::Refused { number, line } => put_refusal(rt, Refusal { number, line }),
    }
}

// A call's answer for each row, and for one number more.
fn put_rows<F: Fn(usize)>(rows: usize, put: F)
    requires { F.IsAlwaysCallable put }
{
    for k in 0..=rows {
        put(k);
    }
}

fn put_strike(rt: &HostRuntime, text: &[u8]) {
    let mut out = [0u8; LARGE_BUFFER];
    if let Ok(n) = printing::put_struck(text, &mut out) {
        put_text(rt, &out[..n]);
    }
}

// Winner's answer, if the line says a probe, and the row that names the group.
fn put_winner(rt: &HostRuntime, text: &[u8], line: &[u8]) {
    if line.len() != PROBE_DIGITS {
        return;
    }
    let packet = Packet {
        source_address: Number::new(hexlines::number_at(line, 3, 4)),
        destination_address: Number::new(hexlines::number_at(line, 7, 4)),
        source_port: Number::new(hexlines::number_at(line, 11, 2)),
        destination_port: Number::new(hexlines::number_at(line, 13, 2)),
        protocol: Number::new(hexlines::number_at(line, 15, 1)),
    };
    let probe = Probe {
        source: hexlines::u8_at(line, 1),
        destination: hexlines::u8_at(line, 2),
        packet,
    };
    match analyser::winner_of(text, hexlines::u8_at(line, 0) as usize, probe) {
        Ok(Some(i)) => {
            put_count(rt, i);
            put_text(rt, b"\n");
        }
        Ok(None) => put_text(rt, b"none\n"),
        Err(r) => put_refusal(rt, r),
    }
}

// The count's digits, or the refusal; and a space.
fn put_counted(rt: &HostRuntime, answer: Result<usize, Refusal>) {
    match answer {
        Ok(n) => put_count(rt, n),
        Err(r) => put_number_and_line(rt, r),
    }
    put_text(rt, b" ");
}

// Join's answer, if the line says a couple, and the output.
fn put_join(rt: &HostRuntime, text: &[u8], line: &[u8]) {
    if line.len() != COUPLE_DIGITS {
        return;
    }
    let first = hexlines::u8_at(line, 0) as usize;
    let second = hexlines::u8_at(line, 1) as usize;
    let length = hexlines::u8_at(line, 2) as usize;
    let mut room = [b'.'; JOINED];
    let out = &mut room[..length];
    put_counted(rt, analyser::join(text, first, second, out));
    put_text(rt, out);
    put_text(rt, b"\n");
}

// Prefixes' answer, if the line says a row's side, and the digits of the output.
fn put_side(rt: &HostRuntime, text: &[u8], line: &[u8]) {
    if line.len() != SIDE_DIGITS {
        return;
    }
    let row = hexlines::u8_at(line, 0) as usize;
    let side = hexlines::u8_at(line, 1);
    let length = hexlines::number_at(line, 2, 2) as usize;
    if PREFIXES < length {
        return;
    }
    let mut room = [b'.'; PREFIXES];
    let out = &mut room[..length];
    put_counted(rt, analyser::prefixes(text, row, side, out));
    put_digits(rt, out);
    put_text(rt, b"\n");
}

// A call's answer to each line, if it is a question for that call.
fn put_questions<F: Fn(&[u8])>(questions: &[u8], put: F)
    requires { F.IsAlwaysCallable put }
{
    for k in 0..questions.len() / QUESTION {
        put(reader::lines::nth_line(questions, k));
    }
}

fn answer(rt: &HostRuntime, text: &[u8], questions: &[u8]) {
    let rows = put_check(rt, text);
    put_rows(rows, |k| put_line(rt, text, k));
    put_list(rt, text);
    put_rows(rows, |k| put_witness(rt, analyser::witness_of(text, k)));
    put_rows(rows, |k| put_witness(rt, mesh_call::mesh_of(text, k)));
    put_strike(rt, text);
    put_questions(questions, |line| put_winner(rt, text, line));
    put_questions(questions, |line| put_join(rt, text, line));
    put_questions(questions, |line| put_side(rt, text, line));
}

// The file that is open for reading; none, with a message, if it can't be opened.
fn open(rt: &HostRuntime, path: &[u8]) -> Option<File> {
    let opened = match str::from_utf8(path) {
        Ok(name) => fs::open(rt, name),
        Err(_) => Err(io::Error::from(io::ErrorKind::InvalidFilename)),
    };
    match opened {
        Ok(file) => Some(file),
        Err(why) => {
            standard::tell(rt, path, why);
            None
        }
    }
}

// Reads the file to its end, or until buffer is full or a read fails, and closes it. Returns how many bytes were read.
fn read(mut file: File, buffer: &mut [u8]) -> usize
    ensures fits { result ≤ length buffer.new }
    ensures part { result ≡ length (take result buffer.new) }
{
    match standard::fill(&mut file, buffer) {
        Ok(n) => n,
        Err(broken) => broken.length,
    }
}

fn answer_files(rt: &HostRuntime, text_path: &[u8], questions_path: &[u8]) {
    let Some(text_file) = open(rt, text_path) else {
        return;
    };
    let Some(questions_file) = open(rt, questions_path) else {
        return;
    };
    let mut text = [0u8; LARGE_BUFFER];
    let n = read(text_file, &mut text);
    let mut questions = [0u8; BUFFER];
    let m = read(questions_file, &mut questions);
    put_text(rt, text_path);
    put_text(rt, b" ");
    answer(rt, &text[..n], &questions[..m]);
}

// Puts argument i at the start of buffer. Returns its length, 0 if it is longer than buffer; none if there is no such argument.
// As it is: a name that is too long is the empty one, which opens nothing, and that is told.
fn argument(rt: &HostRuntime, i: usize, buffer: &mut [u8]) -> Option<usize>
    ensures fits { IfSome result (λ n. n ≤ length buffer.new) }
    ensures part { IfSome result (λ n. n ≡ length (take n buffer.new)) }
{
    match rt.arg(i, buffer) {
        Ok(n) => Some(n),
        Err(FillError::TooLong) => Some(0),
        Err(FillError::NotPresent) => None,
    }
}

// Answers for the texts that arguments i and j name. Returns whether there are these arguments.
fn answer_arguments(rt: &HostRuntime, i: usize, j: usize) -> bool {
    let mut text_path = [0u8; BUFFER];
    let Some(n) = argument(rt, i, &mut text_path) else {
        return false;
    };
    let mut questions_path = [0u8; BUFFER];
    let Some(m) = argument(rt, j, &mut questions_path) else {
        return false;
    };
    answer_files(rt, &text_path[..n], &questions_path[..m]);
    true
}

fn main(rt: HostRuntime) {
    for k in 0..usize::MAX / 2 {
        let i = 2 * k + 1;
        if !answer_arguments(&rt, i, i + 1) {
            return;
        }
    }
}
