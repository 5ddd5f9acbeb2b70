// What a call answers: a length, or the letter and the number of a silence or refusal.
use crate::print::put_hex;
use frame::{BuildRefusal, ReadRefusal, Silence};
use std::io::Write;
use std::{fmt, io};
use stored::WriteRefusal;

// Sn is a silence, Hn a refusal of the host side, Kn one of stored bytes.
#[derive(Clone, Copy)]
pub(crate) struct Refused {
    letter: char,
    number: u8,
}

impl fmt::Display for Refused {
    fn fmt<W: fmt::Write>(&self, f: &mut fmt::Formatter<W>) -> fmt::Result {
        write!(f, "{}{}", self.letter, self.number)
    }
}

impl From<Silence> for Refused {
    fn from(why: Silence) -> Refused {
        Refused {
            letter: 'S',
            number: u8::from(why),
        }
    }
}

impl From<BuildRefusal> for Refused {
    fn from(why: BuildRefusal) -> Refused {
        let number = match why {
            BuildRefusal::ShortBuffer => 1,
            BuildRefusal::TextLength => 2,
            BuildRefusal::TextByte => 3,
        };
        Refused {
            letter: 'H',
            number,
        }
    }
}

impl From<ReadRefusal> for Refused {
    fn from(why: ReadRefusal) -> Refused {
        match why {
            ReadRefusal::ShortBuffer => Refused::from(BuildRefusal::ShortBuffer),
            ReadRefusal::Silent(silence) => Refused::from(silence),
        }
    }
}

impl From<stored::Refusal> for Refused {
    fn from(why: stored::Refusal) -> Refused {
        Refused {
            letter: 'K',
            number: u8::from(why),
        }
    }
}

impl From<WriteRefusal> for Refused {
    fn from(why: WriteRefusal) -> Refused {
        let number = match why {
            WriteRefusal::InvalidRecord => 5,
            WriteRefusal::ShortBuffer => 6,
        };
        Refused {
            letter: 'K',
            number,
        }
    }
}

// ---- writing them

// A space, and the length or what refuses it.
pub(crate) fn put_answer<W: Write, E: Into<Refused>>(
    writer: &mut W,
    answer: Result<usize, E>,
) -> io::Result<()> {
    match answer {
        Ok(n) => write!(writer, " {n}"),
        Err(why) => {
            let refused: Refused = why.into();
            write!(writer, " {refused}")
        }
    }
}

// What each byte of a lent buffer is before.
pub(crate) const FILL: u8 = 0xee;

// How many bytes are as before.
fn put_kept<W: Write>(writer: &mut W, s: &[u8]) -> io::Result<()> {
    let kept = s.iter().position(|b| *b != FILL).unwrap_or(s.len());
    write!(writer, " +{kept}")
}

// The bytes at the start of a lent buffer that are the answer, or its refusal; then how many bytes behind are as before.
pub(crate) fn put_lent<W: Write, E: Into<Refused>>(
    writer: &mut W,
    answer: Result<usize, E>,
    out: &[u8],
) -> io::Result<()> {
    match answer {
        Ok(n) if n <= out.len() => {
            put_hex(writer, &out[..n])?;
            put_kept(writer, &out[n..])
        }
        _ => {
            put_answer(writer, answer)?;
            put_kept(writer, out)
        }
    }
}
