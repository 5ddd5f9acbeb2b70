// The judge's answer as one line, by text's writers: a Display would need a Write of its own over the lent buffer.
#![tactic(auto)]

ghost use Rattle.std.specs.Prelude.{◌≡◌, ◌++◌, ◌+◌, ◌≤◌, length};
ghost use Rattle.base.specs.Lists.{over_at};
ghost use Rattle.text.specs.Word.{newline, decimal};
ghost use Rattle.judging.specs.Judge.{judgement_as};
ghost use Rattle.line.specs.Line.{line_written};

use judging::Judgement;
use recording::Refusal;
use text::{put_decimal, put_word};

// Room for any line.
pub const ROOM: usize = 64;

// A word and a number.
fn put_labelled(word: &[u8], n: usize, at: usize, out: &mut [u8]) -> usize
    requires { at + length word.now + 20 ≤ length out.old }
    ensures { (result ≡ at + length (word.now ++ decimal n)) × (out.new ≡ over_at at (word.now ++ decimal n) out.old) }
{
    let behind = put_word(word, at, out);
    put_decimal(n as u64, behind, out)
}

// A word, a number and the end of the line.
fn put_last(word: &[u8], n: usize, at: usize, out: &mut [u8]) -> usize
    requires { at + length word.now + 21 ≤ length out.old }
    ensures { (result ≡ at + length (word.now ++ (decimal n ++ newline))) × (out.new ≡ over_at at (word.now ++ (decimal n ++ newline)) out.old) }
{
    let behind = put_labelled(word, n, at, out);
    put_word(b"\n", behind, out)
}

// Writes the line to the start of out, and gives its length; 0 if out is under ROOM bytes, and then nothing is written.
#[tactic(auto, using(crate::proofs::Laws::writing))]
pub fn write(answer: Result<Judgement, Refusal>, out: &mut [u8]) -> usize
    ensures { (result, out.new) ≡ line_written (judgement_as answer) out.old }
{
    if out.len() < ROOM {
        return 0;
    }
    match answer {
        Ok(Judgement::Fits(n)) => put_last(b"fits ", n, 0, out),
        Ok(Judgement::Refuted(i, n)) => {
            let behind = put_labelled(b"refuted at ", i, 0, out);
            put_last(b" of ", n, behind, out)
        }
        Ok(Judgement::NotJudged(i, _)) => put_last(b"not judged at ", i, 0, out),
        Err(refusal) => put_last(b"refused J", usize::from(u8::from(refusal)), 0, out),
    }
}
