// The text of a reply, written into the lent part of the reply buffer.
#![tactic(auto)]

ghost use Rattle.std.specs.Prelude.{◌≡◌, [], ◌+◌, ◌*◌, ◌%◌, ◌≤◌, length};
ghost use Rattle.base.specs.Test.{pick};
ghost use Rattle.base.specs.Lists.{over_at};
ghost use Rattle.state.specs.Field.{flag_number};
ghost use Rattle.command.specs.Status.{status_characters, alarm_characters, status_codes, codes_on};
ghost use Rattle.command.specs.Commands.{printed};
ghost use Rattle.command.specs.Request.{reading_as, reply_of, answer_as};
ghost use Rattle.reply.specs.Reply.{labelled, labelled_two, laid_text, written_of, kept_text};

use command::{Reading, Refusal, Request};
use state::{ParameterKind, Phase, Record, code_at, recipe_place};
use text::{put_digits, put_word};

// ---- writers, which take the place and the buffer and give the place behind what they wrote, as text's do

// A word and a number.
fn put_labelled(word: &[u8], n: u32, width: usize, at: usize, out: &mut [u8]) -> usize
    requires { at + length word.now + width ≤ length out.old }
    ensures { (result ≡ at + length (labelled word.now width n)) × (out.new ≡ over_at at (labelled word.now width n) out.old) }
{
    let behind = put_word(word, at, out);
    put_digits(n as u64, width, behind, out)
}

// A word, a number, a space and a number.
fn put_two(
    word: &[u8],
    n: u32,
    width: usize,
    n2: u32,
    width2: usize,
    at: usize,
    out: &mut [u8],
) -> usize
    requires { at + length word.now + width + 1 + width2 ≤ length out.old }
    ensures { (result ≡ at + length (labelled_two word.now width n width2 n2)) × (out.new ≡ over_at at (labelled_two word.now width n width2 n2) out.old) }
{
    let behind = put_labelled(word, n, width, at, out);
    put_labelled(b" ", n2, width2, behind, out)
}

// ---- what the record shows

// The weight if the sign is on.
fn bit(weight: u8, on: bool) -> u8
    ensures { (result ≡ weight * flag_number on) × (result ≤ weight) }
{
    if on { weight } else { 0 }
}

// A status character of four signs.
fn character(eight: bool, four: bool, two: bool, one: bool) -> u8
    ensures { result ≡ 0x30 + (8 * flag_number eight + (4 * flag_number four + (2 * flag_number two + 1 * flag_number one))) }
{
    b'0' + bit(8, eight) + bit(4, four) + bit(2, two) + bit(1, one)
}

// EQ: six status characters.
fn put_status(r: Record, at: usize, out: &mut [u8]) -> usize
    requires { at + 6 ≤ length out.old }
    ensures { (result ≡ at + length (status_characters r)) × (out.new ≡ over_at at (status_characters r) out.old) }
{
    let running = r.phase == Phase::Running;
    let begun = running | (r.phase == Phase::Stopped);
    let first = character(r.keypad, running, r.flow, (r.phase == Phase::Set) | begun);
    let second = character(begun, r.phase == Phase::Done, r.reset, false);
    let third = character(false, false, false, r.alarms != 0);
    let fourth = character(r.changed, false, false, r.powerfail);
    put_word(&[first, second, third, fourth, b'0', b'0'], at, out)
}

// A character of the lowest four alarms.
fn alarm_character(alarms: u32) -> u8
    ensures { result ≡ 0x30 + alarms % 16 }
{
    b'0' + (alarms % 16) as u8
}

// EA: five characters, four alarms in each but the last, which has three.
fn put_alarms(alarms: u32, at: usize, out: &mut [u8]) -> usize
    requires { at + 5 ≤ length out.old }
    ensures { (result ≡ at + length (alarm_characters alarms)) × (out.new ≡ over_at at (alarm_characters alarms) out.old) }
{
    let first = alarm_character(alarms / 32768);
    let second = alarm_character(alarms / 2048);
    let third = alarm_character(alarms / 128);
    let fourth = alarm_character(alarms / 8);
    let fifth = alarm_character(alarms % 8);
    put_word(&[first, second, third, fourth, fifth], at, out)
}

// A word if it is on.
fn put_if(on: bool, word: &[u8], at: usize, out: &mut [u8]) -> usize
    requires { at + length word.now ≤ length out.old }
    ensures value { (result ≡ at + length (pick on word.now [])) × (out.new ≡ over_at at (pick on word.now []) out.old) }
    ensures upper_bound { result ≤ at + length word.now }
{
    if on { put_word(word, at, out) } else { at }
}

// RS: each status code that is on, and a space.
fn put_codes(r: Record, at: usize, out: &mut [u8]) -> usize
    requires { at + 27 ≤ length out.old }
    ensures { (result ≡ at + length (codes_on status_codes r)) × (out.new ≡ over_at at (codes_on status_codes r) out.old) }
{
    let running = r.phase == Phase::Running;
    let alarm = put_if(r.alarms != 0, b"AL ", at, out);
    let flow = put_if(r.flow, b"FL ", alarm, out);
    let reset = put_if(r.reset, b"BD ", flow, out);
    let changed = put_if(r.changed, b"PC ", reset, out);
    let power = put_if(r.powerfail, b"PF ", changed, out);
    let keypad = put_if(r.keypad, b"PW ", power, out);
    let done = put_if(r.phase == Phase::Done, b"TD ", keypad, out);
    let begun = put_if(running | (r.phase == Phase::Stopped), b"TP ", done, out);
    put_if(running, b"RL ", begun, out)
}

// What a request is shown.
fn put_shown(r: Record, reading: Reading, at: usize, out: &mut [u8]) -> usize
    requires { at + 30 ≤ length out.old }
    ensures { (result ≡ at + length (printed (reply_of (reading_as reading)) r)) × (out.new ≡ over_at at (printed (reply_of (reading_as reading)) r) out.old) }
{
    match reading {
        Reading::Status => put_status(r, at, out),
        Reading::Codes => {
            let behind = put_word(b"RS ", at, out);
            put_codes(r, behind, out)
        }
        Reading::Number => put_labelled(b"TN ", r.number as u32, 4, at, out),
        Reading::Recipe => put_labelled(b"RR ", r.recipe as u32, 2, at, out),
        Reading::Composition => put_two(
            b"RC ",
            r.recipe as u32,
            2,
            r.value_at(recipe_place(r.recipe as u16, ParameterKind::Factor)),
            8,
            at,
            out,
        ),
        Reading::Raw => put_labelled(b"RT R ", r.raw, 8, at, out),
        Reading::Value(i) => put_two(b"PV ", code_at(i) as u32, 3, r.value_at(i), 8, at, out),
        Reading::Level(i) => put_two(
            b"XV ",
            code_at(i) as u32,
            3,
            r.level_at(i) as u32,
            1,
            at,
            out,
        ),
        Reading::Alarms => put_alarms(r.alarms, at, out),
    }
}

// Writes the reply to what was served to the start of out, and gives its length; nothing, where out has no room for a text.
pub fn write(r: Record, served: Result<Request, Refusal>, out: &mut [u8]) -> usize
    ensures { (result, out.new) ≡ written_of (answer_as served) r out.old }
{
    if out.len() < 60 {
        return 0;
    }
    let behind = put_digits(r.address as u64, 2, 0, out);
    match served {
        Err(refusal) => put_labelled(b"NO", u32::from(refusal), 2, behind, out),
        Ok(Request::Read(reading)) => put_shown(r, reading, behind, out),
        Ok(Request::Write(_)) => put_word(b"OK", behind, out),
    }
}

// A kept batch: its raw volume, and its number.
#[derive(Clone, Copy)]
pub struct Kept {
    pub raw: u32,
    pub number: u32,
}

// Writes the reply to the request for a kept batch, NO03 if there is none, to the start of out, from the unit with this address, and gives
// its length; nothing, where out has no room for a text. The record is not looked at.
pub fn write_kept(address: u8, kept: Option<Kept>, out: &mut [u8]) -> usize
    ensures { (result, out.new) ≡ laid_text (kept_text address kept) out.old }
{
    if out.len() < 60 {
        return 0;
    }
    let behind = put_digits(address as u64, 2, 0, out);
    match kept {
        None => put_word(b"NO03", behind, out),
        Some(batch) => put_two(b"RT R ", batch.raw, 8, batch.number, 3, behind, out),
    }
}
