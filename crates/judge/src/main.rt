// Judges the recording on standard input, and writes the answer as one line to standard output.
#![tactic(auto)]

use std::io;
use std::io::Write;

// A recording has under 65,536 bytes, so an input that fills the buffer is refused whatever comes behind it.
const ROOM: usize = 65536;

fn main(rt: HostRuntime) -> io::Result<()> {
    let mut recording = [0; ROOM];
    let length = input::read_full(&mut rt.stdin(), &mut recording)?;
    let answer = judging::judge(&recording[..length]);
    let mut text = [0; line::ROOM];
    let written = line::write(answer, &mut text);
    rt.stdout().write_all(&text[..written])
}
