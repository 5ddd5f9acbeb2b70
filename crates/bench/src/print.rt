// Writing to a writer, which is standard output where the program runs.
use std::io;
use std::io::Write;

pub(crate) fn put_character<W: Write>(writer: &mut W, c: u8) -> io::Result<()> {
    writer.write_all(&[c])
}

// A space and two hexadecimal digits for each byte.
pub(crate) fn put_hex<W: Write>(writer: &mut W, s: &[u8]) -> io::Result<()> {
    for byte in s {
        write!(writer, " {byte:02x}")?;
    }
    Ok(())
}
