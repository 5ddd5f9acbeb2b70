// The functions of include/khuyapesh.h, for C and Rust: bytes and numbers in, bytes and numbers out.
#![tactic(auto)]

ghost use Rattle.std.specs.Prelude.{◌≡◌, ◌≤◌, true, Some, None};
ghost use Rattle.base.specs.Test.{pick};
ghost use Rattle.stored.specs.Form.{K, refusal_number};
ghost use Rattle.frame.specs.Numbers.{silence_number, length_in, built_as, read_as};
ghost use Rattle.controller.specs.Call.{answer_silence, answer_length, call_of};
ghost use Rattle.several.specs.Several.{several_of};
ghost use Rattle.several.specs.Beside.{banked_several_of};
ghost use Rattle.banked.specs.Banked.{banked_of};
ghost use Rattle.drum.specs.Numbers.{told_as};
ghost use Rattle.drum.specs.Turns.{size_told};
ghost use Rattle.drumstate.specs.State.{begin_of, take_of};
ghost use Rattle.recording.specs.Form as form;
ghost use Rattle.recording.specs.Form.{exchange_at};
ghost use Rattle.judging.specs.Judge.{judgement_of, caused_as, why_of};
ghost use Rattle.totalling.specs.Totals.{refusal_number as totals_number};
ghost use Rattle.modbus.specs.Numbers.{silence_number as modbus_number};
ghost use Rattle.modbus.specs.Call.{modbus_of};
ghost use Rattle.exports.specs.Modbus.{modbus_silence, modbus_left, modbus_bytes, banked_modbus_bytes};
ghost use Rattle.exports.specs.Totals.{totals_answer, handed_out, totals_numbers, bank_totals_numbers, units_bytes, text_bytes};
ghost use Rattle.exports.specs.Bytes.{has_room, silence_answer, stored_answer, recording_answer, host_answer, is_event, event_of, Opened, open_of, call_left, call_bytes, several_numbers, reported_as, several_as, several_left, several_bytes, open_banked, saved_bank, banked_left, banked_bytes, banked_several_left, banked_several_bytes, bank_bytes, heard_answer, board_answer, answer_left, Tellable, board_bytes, panel_bytes, stored_bytes, build_bytes, read_bytes, drum_answer, drum_left, judge_numbers, known_numbers, learn_numbers, may_hold_number, why_as, reason_numbers, why_numbers, exchange_numbers};

use bank::Bank;
use banked::Banked;
use controller::{Answer, Called};
use frame::{BuildRefusal, Kind, ReadRefusal, Silence};
use hearing::{Exchange, Link};
use judging::{Cause, Judgement, Told};
use knowledge::FIELDS;
use reason::Reason;
use recording::Spans;
use several::Report;
use state::{Event, Record};
use stored::{Refusal, STORED_LENGTH};
use totalling::{NOTHING, Totals};

// ---- the numbers that are answered

// Added to a silence's number.
const SILENT: u32 = 100;

// Added to the number of a refusal of stored bytes.
const STORED: u32 = 200;

// No such kind or event.
const NO_SUCH: u32 = 300;

// Added to the number of a refusal of the host side.
const HOST: u32 = 400;

// Added to the number of a refusal of a recording.
const RECORDING: u32 = 500;

// Added to the number of a refusal of a drum change, and to the step at which one stopped.
const DRUM: u32 = 600;

const STOPPED: u32 = 700;

// Added to the number of a refusal of totals.
const TOTALS: u32 = 800;

// Added to the number of a silence on Modbus.
const MODBUS: u32 = 900;

// Added there to the answer of a refusal of stored bytes, which could else be a reply's length.
const ABOVE_LENGTHS: u32 = 1000;

// No room for the form that is written.
const NO_ROOM: u32 = STORED + 6;

// A bank of wrong version, length or field.
const NO_BANK: u32 = STORED + 7;

// No room for what is handed out: sets, sums or text.
const SHORT_BUFFER: u32 = HOST + 1;

// What stands beside a refusal.
const NOTHING_TAKEN: Report = Report {
    taken: 0,
    answered: 0,
    written: 0,
};

const NOWHERE: Spans = Spans {
    request: 0,
    stop: 0,
    reply: 0,
    end: 0,
};

// The answers of silences and refusals. Not one function over the class and the type: each is one line, and its contract names its definition.
fn silence_answer(why: Silence) -> u32
    ensures { result ≡ silence_answer (silence_number why) }
{
    SILENT + u32::from(u8::from(why))
}

fn modbus_answer(why: modbus::Silence) -> u32
    ensures { result ≡ modbus_silence (modbus_number why) }
{
    MODBUS + u32::from(u8::from(why))
}

fn refusal_answer(why: Refusal) -> u32
    ensures { result ≡ stored_answer (K (refusal_number why)) }
{
    STORED + u32::from(u8::from(why))
}

fn recording_answer(why: recording::Refusal) -> u32
    ensures { result ≡ recording_answer (form.refusal_number why) }
{
    RECORDING + u32::from(u8::from(why))
}

fn totals_answer(why: totalling::Refusal) -> u32
    ensures { result ≡ totals_answer (totals_number why) }
{
    TOTALS + u32::from(u8::from(why))
}

fn built_answer(built: Result<usize, BuildRefusal>) -> u32
    requires { length_in (built_as built) ≤ 64 }
    ensures { result ≡ host_answer (built_as built) }
{
    match built {
        Err(BuildRefusal::ShortBuffer) => HOST + 1,
        Err(BuildRefusal::TextLength) => HOST + 2,
        Err(BuildRefusal::TextByte) => HOST + 3,
        Ok(n) => n as u32,
    }
}

fn text_answer(read: Result<usize, ReadRefusal>) -> u32
    requires { length_in (read_as read) ≤ 64 }
    ensures { result ≡ host_answer (read_as read) }
{
    match read {
        Err(ReadRefusal::ShortBuffer) => HOST + 1,
        Err(ReadRefusal::Silent(why)) => silence_answer(why),
        Ok(n) => n as u32,
    }
}

fn call_answer(called: Answer) -> u32
    requires { answer_length called ≤ 64 }
    ensures { result ≡ heard_answer (answer_silence called) (answer_length called) }
{
    match called {
        Err(why) => silence_answer(why),
        Ok(n) => n as u32,
    }
}

fn board_answer(answer: storedboard::Answer) -> u32
    requires { Tellable answer }
    ensures { result ≡ board_answer (answer_left answer) }
{
    match answer {
        Err(why) => refusal_answer(why),
        Ok(Err(refusal)) => SILENT + u32::from(u8::from(refusal)),
        Ok(Ok(called)) => call_answer(called),
    }
}

fn drum_answer(answer: drum::Answer) -> u32
    requires { size_told (told_as answer) ≤ 64 }
    ensures { result ≡ drum_answer (told_as answer) }
{
    match answer {
        drum::Answer::Refused(why) => DRUM + u32::from(u8::from(why)),
        drum::Answer::ShortBuffer => SHORT_BUFFER,
        drum::Answer::Request(n) => n as u32,
        drum::Answer::Ended => 0,
        drum::Answer::Stopped(step) => STOPPED + u32::from(step),
    }
}

// ---- the numbers that are taken

// The event of a number, if there is one.
fn event_of(event: u8, number: u16) -> Option<Event>
    ensures { result ≡ pick (is_event event) (Some (event_of event number)) None }
{
    match event {
        0 => Some(Event::Pulses(number)),
        1 => Some(Event::Still),
        2 => Some(Event::KeypadOn),
        3 => Some(Event::KeypadOff),
        4 => Some(Event::PowerBack),
        5 => Some(Event::AlarmOn(number)),
        6 => Some(Event::AlarmOff(number)),
        _ => None,
    }
}

// ---- what is lent to be written in its place: opened, or the answer of a refusal

// The record that the stored bytes are, whose form has room in their place.
fn open_record(stored: &[u8]) -> Result<Record, u32>
    ensures { Opened result (open_of stored.now) }
{
    match stored::read(stored) {
        Err(why) => Err(refusal_answer(why)),
        Ok(_) if stored.len() < STORED_LENGTH => Err(NO_ROOM),
        Ok(record) => Ok(record),
    }
}

// The record and the bank that the stored bytes are.
#[tactic(auto, using(crate::proofs::Banks::banks_opening))]
fn open_banked(stored: &[u8], bank: &[u8]) -> Result<Banked, u32>
    ensures { Opened result (open_banked stored.now bank.now) }
{
    let state = open_record(stored)?;
    let Ok(bank) = storedbank::open(bank) else {
        return Err(NO_BANK);
    };
    Ok(Banked { state, bank })
}

// ---- the controller

// One call on the record that the stored bytes are.
fn call_record(
    kind: Kind,
    before: Record,
    stored: &mut [u8],
    request: &[u8],
    reply: &mut [u8],
) -> u32
    requires { open_of stored.old ≡ (0, before) }
    ensures { (result, (stored.new, reply.new)) ≡ call_left (call_of kind before request.now reply.old) stored.old reply.old }
{
    let Called { answer, after } = kept::lend_to_call(kind, before, request, reply);
    match answer {
        Err(why) => silence_answer(why),
        Ok(n) => {
            stored::write(after, stored).unwrap();
            n as u32
        }
    }
}

// One call of the controller.
#[unsafe(no_mangle)]
pub extern "C" fn khuyapesh_call(
    kind: u8,
    stored: &mut [u8],
    request: &[u8],
    reply: &mut [u8],
) -> u32
    ensures { (result, (stored.new, reply.new)) ≡ call_bytes kind stored.old request.now reply.old }
{
    let Ok(kind) = Kind::try_from(kind) else {
        return NO_SUCH;
    };
    let before = match open_record(stored) {
        Ok(before) => before,
        Err(answer) => return answer,
    };
    call_record(kind, before, stored, request, reply)
}

// Several frames on the record that the stored bytes are.
fn several_record(
    before: Record,
    stored: &mut [u8],
    bytes: &[u8],
    reply: &mut [u8],
) -> Result<Report, u32>
    requires { open_of stored.old ≡ (0, before) }
    ensures { several_as result stored.new reply.new ≡ several_left (several_of before bytes.now reply.old) stored.old reply.old }
{
    let Called {
        answer,
        after: last,
    } = several::call(before, bytes, reply);
    match answer {
        Err(why) => Err(silence_answer(why)),
        Ok(report) => {
            stored::write(last, stored).unwrap();
            Ok(report)
        }
    }
}

#[tactic(auto, using(crate::proofs::Steps::taking))]
fn several_stored(stored: &mut [u8], bytes: &[u8], reply: &mut [u8]) -> Result<Report, u32>
    ensures { several_as result stored.new reply.new ≡ several_bytes stored.old bytes.now reply.old }
{
    let before = open_record(stored)?;
    several_record(before, stored, bytes, reply)
}

// Hands out what is reported: nothing beside the answer of a refusal.
fn hand_out(
    served: Result<Report, u32>,
    taken: &mut usize,
    answered: &mut usize,
    written: &mut usize,
) -> u32
    ensures { reported_as served ≡ (result, (taken.new, (answered.new, written.new))) }
{
    let (answer, report) = match served {
        Ok(report) => (0, report),
        Err(answer) => (answer, NOTHING_TAKEN),
    };
    *taken = report.taken;
    *answered = report.answered;
    *written = report.written;
    answer
}

// All minicomputer frames in the lent bytes.
#[tactic(auto, using(crate::proofs::Steps::handed_out))]
#[unsafe(no_mangle)]
pub extern "C" fn khuyapesh_several(
    stored: &mut [u8],
    bytes: &[u8],
    reply: &mut [u8],
    taken: &mut usize,
    answered: &mut usize,
    written: &mut usize,
) -> u32
    ensures { several_numbers result taken.new answered.new written.new stored.new reply.new ≡ several_bytes stored.old bytes.now reply.old }
{
    hand_out(
        several_stored(stored, bytes, reply),
        taken,
        answered,
        written,
    )
}

// ---- with a bank beside the record

// Writes the bank in its place if a batch was stored; else it stands there.
fn save_bank(before: Record, after: Record, batches: Bank, bank: &mut [u8])
    ensures { bank.new ≡ saved_bank before after batches bank.old }
{
    if banked::stores(before, after) {
        // Refused for no bank that was opened.
        let _ = storedbank::write(batches, bank);
    }
}

// One call on what the stored bytes and the bank are. Not one function with call_record: which bytes are written back is all that either does
// beside the call.
fn banked_record(
    kind: Kind,
    before: Banked,
    stored: &mut [u8],
    bank: &mut [u8],
    request: &[u8],
    reply: &mut [u8],
) -> u32
    requires { open_banked stored.old bank.old ≡ (0, before) }
    ensures { (result, (stored.new, (bank.new, reply.new))) ≡ banked_left before (banked_of kind before request.now reply.old) stored.old bank.old reply.old }
{
    let Called { answer, after } = kept::lend_to_call(kind, before, request, reply);
    match answer {
        Err(why) => silence_answer(why),
        Ok(n) => {
            save_bank(before.state, after.state, after.bank, bank);
            stored::write(after.state, stored).unwrap();
            n as u32
        }
    }
}

// One call of the controller with a bank.
#[tactic(auto, using(crate::proofs::Banks::banked_serving))]
#[unsafe(no_mangle)]
pub extern "C" fn khuyapesh_banked_call(
    kind: u8,
    stored: &mut [u8],
    bank: &mut [u8],
    request: &[u8],
    reply: &mut [u8],
) -> u32
    ensures { (result, (stored.new, (bank.new, reply.new))) ≡ banked_bytes kind stored.old bank.old request.now reply.old }
{
    let Ok(kind) = Kind::try_from(kind) else {
        return NO_SUCH;
    };
    let before = match open_banked(stored, bank) {
        Ok(before) => before,
        Err(answer) => return answer,
    };
    banked_record(kind, before, stored, bank, request, reply)
}

// Several frames on what the stored bytes and the bank are, and again what is written back.
fn banked_several(
    before: Banked,
    stored: &mut [u8],
    bank: &mut [u8],
    bytes: &[u8],
    reply: &mut [u8],
) -> Result<Report, u32>
    requires { open_banked stored.old bank.old ≡ (0, before) }
    ensures { (several_as result stored.new reply.new, bank.new) ≡ banked_several_left (banked_several_of before bytes.now reply.old) stored.old bank.old reply.old }
{
    let Called { answer, after } = several::call(before, bytes, reply);
    match answer {
        Err(why) => Err(silence_answer(why)),
        Ok(report) => {
            stored::write(after.state, stored).unwrap();
            storedbank::write(after.bank, bank).unwrap();
            Ok(report)
        }
    }
}

#[tactic(auto, using(crate::proofs::Banks::banked_taking))]
fn banked_stored(
    stored: &mut [u8],
    bank: &mut [u8],
    bytes: &[u8],
    reply: &mut [u8],
) -> Result<Report, u32>
    ensures { (several_as result stored.new reply.new, bank.new) ≡ banked_several_bytes stored.old bank.old bytes.now reply.old }
{
    let before = open_banked(stored, bank)?;
    banked_several(before, stored, bank, bytes, reply)
}

// All minicomputer frames in the lent bytes, with a bank.
#[tactic(auto, using(crate::proofs::Banks::banked_handed))]
#[unsafe(no_mangle)]
pub extern "C" fn khuyapesh_banked_several(
    stored: &mut [u8],
    bank: &mut [u8],
    bytes: &[u8],
    reply: &mut [u8],
    taken: &mut usize,
    answered: &mut usize,
    written: &mut usize,
) -> u32
    ensures { (several_numbers result taken.new answered.new written.new stored.new reply.new, bank.new) ≡ banked_several_bytes stored.old bank.old bytes.now reply.old }
{
    hand_out(
        banked_stored(stored, bank, bytes, reply),
        taken,
        answered,
        written,
    )
}

// Reads a stored bank and writes what was read; the empty one beside a refusal.
#[unsafe(no_mangle)]
pub extern "C" fn khuyapesh_bank(bank: &[u8], out: &mut [u8]) -> u32
    ensures { (result, out.new) ≡ bank_bytes bank.now out.old }
{
    // The empty bank takes the place of what was read: the stack holds one bank, not two.
    let mut read = storedbank::read(bank);
    let answer = match read {
        Ok(_) => 0,
        Err(_) => {
            read = Ok(bank::empty());
            NO_BANK
        }
    };
    match storedbank::write(read.unwrap(), out) {
        Ok(()) => answer,
        Err(_) => NO_ROOM,
    }
}

// ---- week totals

// Hands out sums and counts, beside the answer that goes with them, or tells that there is no room.
fn hand_out_totals(answer: u32, totals: Totals, sums: &mut [u64], counts: &mut [u32]) -> u32
    ensures { (result, (sums.new, counts.new)) ≡ handed_out answer totals.sums totals.counts sums.old counts.old }
{
    if !totalling::lay(totals, sums, counts) {
        return SHORT_BUFFER;
    }
    answer
}

// Adds up the batches of three lists.
#[tactic(auto, unfolding(crate::specs::Totals::totals_numbers))]
#[unsafe(no_mangle)]
pub extern "C" fn khuyapesh_totals(
    raws: &[u32],
    factors: &[u32],
    recipes: &[u32],
    sums: &mut [u64],
    counts: &mut [u32],
) -> u32
    ensures { (result, (sums.new, counts.new)) ≡ totals_numbers raws.now factors.now recipes.now sums.old counts.old }
{
    match totalling::add_up(raws, factors, recipes) {
        Ok(totals) => hand_out_totals(0, totals, sums, counts),
        Err(why) => hand_out_totals(totals_answer(why), NOTHING, sums, counts),
    }
}

// Adds up the batches of a stored bank.
#[tactic(auto, unfolding(crate::specs::Totals::bank_totals_numbers))]
#[unsafe(no_mangle)]
pub extern "C" fn khuyapesh_bank_totals(bank: &[u8], sums: &mut [u64], counts: &mut [u32]) -> u32
    ensures { (result, (sums.new, counts.new)) ≡ bank_totals_numbers bank.now sums.old counts.old }
{
    match week::add_up(bank) {
        Ok(totals) => hand_out_totals(0, totals, sums, counts),
        Err(_) => hand_out_totals(NO_BANK, NOTHING, sums, counts),
    }
}

// Writes a sum in units.
#[unsafe(no_mangle)]
pub extern "C" fn khuyapesh_units(sum: u64, out: &mut [u8]) -> u32
    ensures { (result, out.new) ≡ units_bytes sum out.old }
{
    let Some(written) = sheet::write_units(sum, out) else {
        return SHORT_BUFFER;
    };
    written as u32
}

// Writes what the program `totals` writes for a stored bank.
#[unsafe(no_mangle)]
pub extern "C" fn khuyapesh_totals_text(bank: &[u8], out: &mut [u8], written: &mut usize) -> u32
    ensures { (result, (written.new, out.new)) ≡ text_bytes bank.now out.old }
{
    // before the bank is read: without room it costs nothing
    if out.len() < sheet::ROOM {
        *written = 0;
        return SHORT_BUFFER;
    }
    let printed = week::write(bank, out);
    *written = printed.written.unwrap();
    match printed.answer {
        Ok(()) => 0,
        Err(_) => NO_BANK,
    }
}

// ---- several controllers on one board

// One call of the board whose records the stored bytes are, end to end.
#[tactic(auto, using(crate::proofs::Boards::boarding))]
#[unsafe(no_mangle)]
pub extern "C" fn khuyapesh_board(
    kind: u8,
    stored: &mut [u8],
    request: &[u8],
    reply: &mut [u8],
) -> u32
    ensures { (result, (stored.new, reply.new)) ≡ board_bytes kind stored.old request.now reply.old }
{
    let Ok(kind) = Kind::try_from(kind) else {
        return NO_SUCH;
    };
    board_answer(storedboard::call(kind, stored, request, reply))
}

// ---- on Modbus

// One call on the record that the stored bytes are. Not one function with call_record: the call and the silence's answer are all that either has.
fn modbus_record(before: Record, stored: &mut [u8], request: &[u8], reply: &mut [u8]) -> u32
    requires { open_of stored.old ≡ (0, before) }
    ensures { (result, (stored.new, reply.new)) ≡ modbus_left (modbus_of before request.now reply.old) stored.old reply.old }
{
    let Called {
        answer,
        after: record,
    } = modbus::call(before, request, reply);
    match answer {
        Err(why) => modbus_answer(why),
        Ok(n) => {
            stored::write(record, stored).unwrap();
            n as u32
        }
    }
}

// One call of the controller as a Modbus slave.
#[tactic(auto, using(crate::proofs::Modbus::modbus_serving))]
#[unsafe(no_mangle)]
pub extern "C" fn khuyapesh_modbus(stored: &mut [u8], request: &[u8], reply: &mut [u8]) -> u32
    ensures { (result, (stored.new, reply.new)) ≡ modbus_bytes stored.old request.now reply.old }
{
    let before = match open_record(stored) {
        Ok(before) => before,
        Err(answer) => return ABOVE_LENGTHS + answer,
    };
    modbus_record(before, stored, request, reply)
}

// The same with a bank. What was opened is valid, so that no more is asked of the bank.
#[tactic(auto, using(crate::proofs::Modbus::banked_modbus_serving))]
#[unsafe(no_mangle)]
pub extern "C" fn khuyapesh_banked_modbus(
    stored: &mut [u8],
    bank: &[u8],
    request: &[u8],
    reply: &mut [u8],
) -> u32
    ensures { (result, (stored.new, reply.new)) ≡ banked_modbus_bytes stored.old bank.now request.now reply.old }
{
    let held = match open_banked(stored, bank) {
        Ok(held) => held,
        Err(answer) => return ABOVE_LENGTHS + answer,
    };
    modbus_record(held.state, stored, request, reply)
}

// ---- the panel

// One event of the panel.
#[unsafe(no_mangle)]
pub extern "C" fn khuyapesh_panel(event: u8, number: u16, stored: &mut [u8]) -> u32
    ensures { (result, stored.new) ≡ panel_bytes event number stored.old }
{
    let Some(event) = event_of(event, number) else {
        return NO_SUCH;
    };
    let before = match open_record(stored) {
        Ok(before) => before,
        Err(answer) => return answer,
    };
    stored::write(kept::lend_to_event(before, event), stored).unwrap();
    0
}

// ---- the stored form

// What was read, or the low record beside a refusal, where there is room for it. A function of its own, so that a buffer that is too short
// costs nothing: the places for records are made here.
fn copy_stored(stored: &[u8], out: &mut [u8]) -> u32
    requires { has_room out.old ≡ true }
    ensures { (result, out.new) ≡ stored_bytes stored.now out.old }
{
    match stored::read(stored) {
        Ok(record) => {
            stored::write(record, out).unwrap();
            0
        }
        Err(why) => {
            stored::write(stored::low_record(), out).unwrap();
            refusal_answer(why)
        }
    }
}

// Reads a stored record and writes what was read; the low record beside a refusal.
#[unsafe(no_mangle)]
pub extern "C" fn khuyapesh_stored(stored: &[u8], out: &mut [u8]) -> u32
    ensures { (result, out.new) ≡ stored_bytes stored.now out.old }
{
    if out.len() < STORED_LENGTH {
        return NO_ROOM;
    }
    copy_stored(stored, out)
}

// ---- the host side

// Builds the frame of a text.
#[unsafe(no_mangle)]
pub extern "C" fn khuyapesh_build(kind: u8, text: &[u8], out: &mut [u8]) -> u32
    ensures { (result, out.new) ≡ build_bytes kind text.now out.old }
{
    let Ok(kind) = Kind::try_from(kind) else {
        return NO_SUCH;
    };
    built_answer(frame::build(kind, text, out))
}

// Copies a frame's text.
#[unsafe(no_mangle)]
pub extern "C" fn khuyapesh_read(kind: u8, frame: &[u8], out: &mut [u8]) -> u32
    ensures { (result, out.new) ≡ read_bytes kind frame.now out.old }
{
    let Ok(kind) = Kind::try_from(kind) else {
        return NO_SUCH;
    };
    text_answer(frame::read(kind, frame, out))
}

// ---- the drum change

// Begins a drum change.
#[unsafe(no_mangle)]
pub extern "C" fn khuyapesh_drum_begin(
    address: u8,
    recipe: u8,
    factor: u32,
    preset: u32,
    state: &mut [u8],
    request: &mut [u8],
) -> u32
    ensures { (result, (state.new, request.new)) ≡ drum_left (begin_of address recipe factor preset state.old request.old) }
{
    drum_answer(drumstate::begin(
        drum::picked(address, recipe, factor, preset),
        state,
        request,
    ))
}

// Takes a reply.
#[unsafe(no_mangle)]
pub extern "C" fn khuyapesh_drum_take(state: &mut [u8], reply: &[u8], request: &mut [u8]) -> u32
    ensures { (result, (state.new, request.new)) ≡ drum_left (take_of state.old reply.now request.old) }
{
    drum_answer(drumstate::take(state, reply, request))
}

// ---- the judge

// Judges a recording.
#[tactic(auto, unfolding(crate::specs::Bytes::judge_numbers))]
#[unsafe(no_mangle)]
pub extern "C" fn khuyapesh_judge(recording: &[u8], place: &mut usize, count: &mut usize) -> u32
    ensures { (result, (place.new, count.new)) ≡ judge_numbers (judgement_of recording.now) }
{
    let (answer, i, n) = match judging::judge(recording) {
        Ok(Judgement::Fits(n)) => (0, 0, n),
        Ok(Judgement::Refuted(i, n)) => (1, i, n),
        Ok(Judgement::NotJudged(i, n)) => (2, i, n),
        Err(refusal) => (recording_answer(refusal), 0, 0),
    };
    *place = i;
    *count = n;
    answer
}

// ---- what a recording tells

// What is known of the record after the first exchanges.
#[tactic(auto, unfolding(crate::specs::Bytes::known_numbers))]
#[unsafe(no_mangle)]
pub extern "C" fn khuyapesh_known(
    recording: &[u8],
    exchanges: usize,
    sets: &mut [u32],
    place: &mut usize,
) -> u32
    ensures { (result, (place.new, sets.new)) ≡ known_numbers recording.now exchanges sets.old }
{
    *place = 0;
    if sets.len() < FIELDS {
        return SHORT_BUFFER;
    }
    match judging::known(recording, exchanges) {
        Ok(Told::Sets(codes)) => {
            knowledge::lay(codes, sets);
            0
        }
        Ok(Told::Refuted(i)) => {
            *place = i;
            1
        }
        Ok(Told::NotJudged(i)) => {
            *place = i;
            2
        }
        Err(refusal) => recording_answer(refusal),
    }
}

// One exchange more: from the sets before it, those after it.
#[unsafe(no_mangle)]
pub extern "C" fn khuyapesh_learn(
    address: u8,
    access: u8,
    request: &[u8],
    reply: &[u8],
    sets: &mut [u32],
) -> u32
    ensures { (result, sets.new) ≡ learn_numbers address access request.now reply.now sets.old }
{
    if sets.len() < FIELDS {
        return SHORT_BUFFER;
    }
    if hearing::asks_batch(address, request) {
        return 2;
    }
    let link = Link { address, access };
    let exchange = Exchange { request, reply };
    let after = hearing::learn(knowledge::lent(sets), link, exchange, true);
    if !after.alive {
        return 1;
    }
    knowledge::lay(after.codes, sets);
    0
}

// Whether the set of a field has a number.
#[unsafe(no_mangle)]
pub extern "C" fn khuyapesh_may_hold(field: usize, set: u32, number: u32) -> u32
    ensures { result ≡ may_hold_number field set number }
{
    u32::from(knowledge::may_hold(field, set, number))
}

// The answer, and what is told beside it. No Result: the caller is given all five numbers beside every answer.
#[derive(Clone, Copy)]
struct WhyNumbers {
    pub answer: u32,
    pub place: usize,
    pub number: u32,
    pub held: u32,
    pub needed: u32,
}

const NOTHING_TOLD: WhyNumbers = WhyNumbers {
    answer: 0,
    place: 0,
    number: 0,
    held: 0,
    needed: 0,
};

fn reason_numbers(place: usize, why: Reason) -> WhyNumbers
    ensures { why_as result ≡ reason_numbers place why }
{
    match why {
        Reason::Answered(n) => WhyNumbers {
            answer: 1,
            place,
            number: u32::from(n),
            ..NOTHING_TOLD
        },
        Reason::Unanswered => WhyNumbers {
            answer: 2,
            place,
            ..NOTHING_TOLD
        },
        Reason::Impossible => WhyNumbers {
            answer: 3,
            place,
            ..NOTHING_TOLD
        },
        Reason::Field(number, held, needed) => WhyNumbers {
            answer: 4,
            place,
            number,
            held,
            needed,
        },
    }
}

#[tactic(auto, unfolding(crate::specs::Bytes::why_numbers))]
fn cause_numbers(cause: Result<Cause, recording::Refusal>) -> WhyNumbers
    ensures { why_as result ≡ why_numbers (caused_as cause) }
{
    match cause {
        Ok(Cause::Fits(_)) => NOTHING_TOLD,
        Ok(Cause::NotJudged(place, _)) => WhyNumbers {
            answer: 5,
            place,
            ..NOTHING_TOLD
        },
        Ok(Cause::Refuted(place, _, why)) => reason_numbers(place, why),
        Err(refusal) => WhyNumbers {
            answer: recording_answer(refusal),
            ..NOTHING_TOLD
        },
    }
}

// Why a recording is refuted, or not judged to its end.
#[unsafe(no_mangle)]
pub extern "C" fn khuyapesh_why(
    recording: &[u8],
    place: &mut usize,
    number: &mut u32,
    held: &mut u32,
    needed: &mut u32,
) -> u32
    ensures { (result, (place.new, (number.new, (held.new, needed.new)))) ≡ why_numbers (why_of recording.now) }
{
    let why = cause_numbers(judging::why(recording));
    *place = why.place;
    *number = why.number;
    *held = why.held;
    *needed = why.needed;
    why.answer
}

// The exchange that starts at a place.
#[tactic(auto, unfolding(crate::specs::Bytes::exchange_numbers))]
#[unsafe(no_mangle)]
pub extern "C" fn khuyapesh_exchange(
    recording: &[u8],
    at: usize,
    request: &mut usize,
    stop: &mut usize,
    reply: &mut usize,
    end: &mut usize,
) -> u32
    ensures { (result, (request.new, (stop.new, (reply.new, end.new)))) ≡ exchange_numbers (exchange_at recording.now at) }
{
    let (answer, spans) = match recording::exchange_at(recording, at) {
        Ok(Some(spans)) => (0, spans),
        Ok(None) => (1, NOWHERE),
        Err(refusal) => (recording_answer(refusal), NOWHERE),
    };
    *request = spans.request;
    *stop = spans.stop;
    *reply = spans.reply;
    *end = spans.end;
    answer
}
