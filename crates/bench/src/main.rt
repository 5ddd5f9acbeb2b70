// Runs the examples, limits and traps of documents 01 and 02: one case to a line of the input, written back with what it gets.
// The input itself says at its start what each kind of line is.
#![tactic(auto)]

mod answers;
mod fields;
mod print;
mod uses;
mod words;

ghost use Rattle.std.specs.Prelude.{◌≤◌};

use crate::answers::FILL;
use crate::fields::{bench, event_in, set, shown};
use crate::print::put_character;
use crate::uses::{build, call, change, enclose, load, read, store};
use crate::words::{MOST, at, count_in, fill, last_number, number_before};
use frame::Kind;
use input::read_full;
use state::Record;
use std::io;
use std::io::Write;

// How much of the input is run.
const INPUT_ROOM: usize = 65536;

// ---- a line's bytes

// Where a line's bytes start, by its mark.
fn start_of(mark: u8) -> usize
    ensures { 2 ≤ result }
{
    match mark {
        b'M' | b'T' => 2,
        b'l' => 5,
        b'r' => 7,
        b'b' => 8,
        _ => 14,
    }
}

// The kind, whose letter stands before a line's bytes.
fn kind_of(line: &[u8]) -> Kind {
    let start = start_of(at(line, 0));
    if at(line, start - 2) == b'T' {
        return Kind::Terminal;
    }
    Kind::Minicomputer
}

// Lays the frame of a text in quotes into a buffer, and gives its length.
fn lay_frame(kind: Kind, words: &[u8], data: &mut [u8]) -> usize {
    if data.is_empty() {
        return 0;
    }
    fill(words, &mut data[1..]);
    frame::enclose(kind, count_in(words), data).unwrap_or(0)
}

// Lays the bytes that a line's words give into a buffer, of a call's text those of its frame; gives their number.
fn lay(line: &[u8], words: &[u8], data: &mut [u8]) -> usize {
    if start_of(at(line, 0)) == 2 && at(words, 0) == b'"' {
        return lay_frame(kind_of(line), words, data);
    }
    fill(words, data);
    count_in(words)
}

fn lay_line(line: &[u8], data: &mut [u8]) -> usize {
    let start = start_of(at(line, 0));
    if line.len() < start {
        return 0;
    }
    lay(line, &line[start..], data)
}

// ---- the kinds of lines

// The host side's lines.
fn host<W: Write>(
    writer: &mut W,
    kind: Kind,
    line: &[u8],
    data: &mut [u8],
    out: &mut [u8],
) -> io::Result<()> {
    match at(line, 0) {
        b'b' => build(writer, kind, data, out),
        b'r' => read(writer, kind, data, out),
        b'e' => enclose(writer, kind, number_before(line, 11), data),
        _ => Ok(()),
    }
}

// The record after a line that needs no buffer.
fn alone<W: Write>(writer: &mut W, r: Record, line: &[u8]) -> io::Result<Record> {
    match at(line, 0) {
        b'=' => Ok(bench(line)),
        b's' => Ok(set(r, line)),
        b'p' => shown(writer, r.after(event_in(line))),
        b'?' => shown(writer, r),
        b'c' => change(writer, r, line),
        _ => Ok(r),
    }
}

// The record after a line.
fn after<W: Write>(
    writer: &mut W,
    r: Record,
    line: &[u8],
    data: &[u8],
    out: &mut [u8],
) -> io::Result<Record> {
    match at(line, 0) {
        b'M' => call(writer, Kind::Minicomputer, r, data, out),
        b'T' => call(writer, Kind::Terminal, r, data, out),
        b'w' => store(writer, r, out),
        b'l' => load(writer, data),
        _ => alone(writer, r, line),
    }
}

// Between a line and what it gets, if its kind gets something.
fn put_arrow<W: Write>(writer: &mut W, mark: u8) -> io::Result<()> {
    match mark {
        0 | b'#' | b'=' | b's' | b'i' => Ok(()),
        _ => writer.write_all(b" ->"),
    }
}

// ---- one line after the other

// The record after a line, with n bytes and a buffer of its own.
fn with_data<W: Write>(
    writer: &mut W,
    r: Record,
    line: &[u8],
    n: usize,
    data: &mut [u8],
    out: &mut [u8],
) -> io::Result<Record> {
    if data.len() < n {
        return Ok(r);
    }
    host(writer, kind_of(line), line, &mut data[0..n], out)?;
    after(writer, r, line, &data[0..n], out)
}

fn with_room<W: Write>(
    writer: &mut W,
    r: Record,
    room: usize,
    line: &[u8],
    out: &mut [u8],
) -> io::Result<Record> {
    let mut data = [0u8; MOST];
    if out.len() < room {
        return Ok(r);
    }
    let n = lay_line(line, &mut data);
    with_data(writer, r, line, n, &mut data, &mut out[0..room])
}

// The record after a line that is written back with what it gets.
fn run_line<W: Write>(writer: &mut W, r: Record, room: usize, line: &[u8]) -> io::Result<Record> {
    let mut out = [FILL; MOST];
    writer.write_all(line)?;
    put_arrow(writer, at(line, 0))?;
    let next = with_room(writer, r, room, line, &mut out)?;
    put_character(writer, b'\n')?;
    Ok(next)
}

// How many bytes are lent after a line.
fn room_after(room: usize, line: &[u8]) -> usize {
    if at(line, 0) == b'i' {
        return last_number(line) as usize;
    }
    room
}

// Every line in turn; each gets the record and the room that the last left.
fn run<W: Write>(writer: &mut W, s: &[u8]) -> io::Result<()> {
    let mut r = stored::low_record();
    let mut room = 64;
    for ended in s.split_inclusive(|b| *b == b'\n') {
        let line = ended.strip_suffix(b"\n").unwrap_or(ended);
        r = run_line(writer, r, room, line)?;
        room = room_after(room, line);
    }
    Ok(())
}

fn main(rt: HostRuntime) -> io::Result<()> {
    let mut buffer = [0u8; INPUT_ROOM];
    let n = read_full(&mut rt.stdin(), &mut buffer)?;
    run(&mut rt.stdout(), &buffer[..n])
}
