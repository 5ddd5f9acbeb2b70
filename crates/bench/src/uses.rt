// The calls of the libraries, each with what it gets.
use crate::answers::{FILL, put_answer, put_lent};
use crate::fields::{shown, small};
use crate::print::{put_character, put_hex};
use crate::words::{last_number, number_before};
use controller::Answer;
use frame::{Addressed, Kind};
use state::Record;
use std::io;
use std::io::Write;
use stored::STORED_LENGTH;

// ---- the controller

// The text of a frame, in quotes.
fn put_text<W: Write>(writer: &mut W, kind: Kind, frame: &[u8]) -> io::Result<()> {
    match frame::locate(kind, frame) {
        Ok(n) if n < frame.len() => {
            put_character(writer, b'"')?;
            writer.write_all(&frame[1..n + 1])?;
            put_character(writer, b'"')
        }
        _ => Ok(()),
    }
}

// The reply's text and its bytes.
fn put_reply<W: Write>(writer: &mut W, kind: Kind, answer: Answer, out: &[u8]) -> io::Result<()> {
    match answer {
        Ok(n) if n <= out.len() => {
            put_character(writer, b' ')?;
            put_text(writer, kind, &out[..n])?;
        }
        _ => {}
    }
    put_lent(writer, answer, out)
}

// One call; gets the reply's text and its bytes.
pub(crate) fn call<W: Write>(
    writer: &mut W,
    kind: Kind,
    r: Record,
    request: &[u8],
    out: &mut [u8],
) -> io::Result<Record> {
    let done = controller::call(kind, r, request, out);
    put_reply(writer, kind, done.answer, out)?;
    Ok(done.after)
}

// ---- the host side

pub(crate) fn build<W: Write>(
    writer: &mut W,
    kind: Kind,
    text: &[u8],
    out: &mut [u8],
) -> io::Result<()> {
    let answer = frame::build(kind, text, out);
    put_lent(writer, answer, out)
}

// Gets the frame's length and the whole buffer.
pub(crate) fn enclose<W: Write>(
    writer: &mut W,
    kind: Kind,
    n: usize,
    buffer: &mut [u8],
) -> io::Result<()> {
    put_answer(writer, frame::enclose(kind, n, buffer))?;
    put_hex(writer, buffer)
}

// Gets the text, then where it lies, then whom it is for.
pub(crate) fn read<W: Write>(
    writer: &mut W,
    kind: Kind,
    frame: &[u8],
    out: &mut [u8],
) -> io::Result<()> {
    let answer = frame::read(kind, frame, out);
    put_lent(writer, answer, out)?;
    put_answer(writer, frame::locate(kind, frame))?;
    let addressed = frame::address(kind, frame);
    if let Ok(Addressed { unit, .. }) = addressed {
        write!(writer, " {unit}")?;
    }
    put_answer(writer, addressed.map(|whom| whom.length))
}

// ---- the stored form

pub(crate) fn store<W: Write>(writer: &mut W, r: Record, out: &mut [u8]) -> io::Result<Record> {
    let answer = stored::write(r, out).map(|_| STORED_LENGTH);
    put_lent(writer, answer, out)?;
    Ok(r)
}

// Gets how many bytes were read, and the record.
pub(crate) fn load<W: Write>(writer: &mut W, form: &[u8]) -> io::Result<Record> {
    let reading = stored::read(form);
    put_answer(writer, reading.map(|_| form.len()))?;
    shown(writer, reading.unwrap_or(stored::low_record()))
}

// The record that is read from another's form with the byte at one place changed, which a line gives.
pub(crate) fn change<W: Write>(writer: &mut W, r: Record, line: &[u8]) -> io::Result<Record> {
    let mut form = [FILL; STORED_LENGTH];
    let _ = stored::write(r, &mut form);
    if let Some(byte) = form.get_mut(number_before(line, 10)) {
        *byte = small(last_number(line));
    }
    load(writer, &form)
}
