// Adds up the stored bank on standard input, and writes a line for each recipe that occurs to standard output.
#![tactic(auto)]

use std::io;
use std::io::Write;

// One byte more than any stored bank has, so an input that fills it is refused whatever comes behind it.
const ROOM: usize = storedbank::ROOM + 1;

fn main(rt: HostRuntime) -> io::Result<()> {
    let mut stored = [0; ROOM];
    let length = input::read_full(&mut rt.stdin(), &mut stored)?;
    let mut text = [0; sheet::ROOM];
    // there is room for any
    let written = week::write(&stored[..length], &mut text).written.unwrap();
    rt.stdout().write_all(&text[..written])
}
