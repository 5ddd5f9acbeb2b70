// A Modbus RTU slave over the controller's parameters: a request frame in, a reply frame or a named silence out.
#![tactic(auto)]

ghost use Rattle.std.specs.Prelude.{Bool, ℕ, List, ◌≡◌, ◌++◌, ◌+◌, ◌*◌, ◌≤◌, ◌<◌, length, take};
ghost use Rattle.base.specs.Lists.{over};
ghost use Rattle.command.specs.Request.{refusal_number, effect_as};
ghost use Rattle.modbus.specs.Numbers.{silence_number, exception_number, told_as, asked_as, outcome_as};
ghost use Rattle.modbus.specs.Request.{word_at, byte_count_in, function_in, asked_read, asked_write, asked_frame, asked_of};
ghost use Rattle.modbus.specs.Reply.{register_at, registers, refusal, shown, echoed, exception_for, laid};
ghost use Rattle.modbus.specs.Call.{written_of, holding, served_by, modbus_of, banked_modbus_of, record_outcome, banked_outcome};
ghost use Rattle.controller.specs.Call.{OutcomeOf};
ghost use Rattle.state.specs.declared.Record.{Record};
ghost use Rattle.state.specs.Valid.{valid as record_valid};
ghost use Rattle.banked.specs.Banked.{valid as banked_valid, with as beside};

use banked::Banked;
use command::{Refusal, Served};
use controller::Called;
use state::{PARAMETERS, Record};

// Why a request gets no reply, in the order of the tests.
#[derive(Clone, Copy, PartialEq, Eq)]
pub enum Silence {
    // M1
    InvalidRecord,
    // M2
    ShortReplyBuffer,
    // M3
    FrameLength,
    // M4
    Crc,
    // M5
    OtherSlave,
    // M6
    FunctionRange,
    // M7
    ReadLength,
    // M8
    WriteLength,
}

// The n of Mn.
impl From<Silence> for u8 {
    ghost from_gives = { λ silence n. n ≡ silence_number silence };

    fn from(silence: Silence) -> u8 {
        match silence {
            Silence::InvalidRecord => 1,
            Silence::ShortReplyBuffer => 2,
            Silence::FrameLength => 3,
            Silence::Crc => 4,
            Silence::OtherSlave => 5,
            Silence::FunctionRange => 6,
            Silence::ReadLength => 7,
            Silence::WriteLength => 8,
        }
    }
}

// The standard's exceptions that are answered.
#[derive(Clone, Copy, PartialEq, Eq)]
pub enum Exception {
    // 01
    IllegalFunction,
    // 02
    IllegalDataAddress,
    // 03
    IllegalDataValue,
    // 04
    SlaveDeviceFailure,
}

// The exception's code in a reply.
impl From<Exception> for u8 {
    ghost from_gives = { λ exception n. n ≡ exception_number exception };

    fn from(exception: Exception) -> u8 {
        match exception {
            Exception::IllegalFunction => 1,
            Exception::IllegalDataAddress => 2,
            Exception::IllegalDataValue => 3,
            Exception::SlaveDeviceFailure => 4,
        }
    }
}

// The exception that stands for a refusal of PC.
impl From<Refusal> for Exception {
    ghost from_gives = { λ refusal exception. exception_number exception ≡ exception_for (refusal_number refusal) };

    fn from(refusal: Refusal) -> Exception {
        match refusal {
            Refusal::Range => Exception::IllegalDataValue,
            _ => Exception::SlaveDeviceFailure,
        }
    }
}

// What a request that gets a reply asks for.
#[derive(Clone, Copy)]
enum Asked {
    Exception(Exception),
    // The first register, and how many.
    Read(usize, usize),
    // The parameter's place, and the value.
    Write(usize, u32),
}

// The length of the reply frame; or M1 to M8.
pub type Answer = Result<usize, Silence>;

// The least room for a reply.
pub const ROOM: usize = 256;

// The shortest frame, and the longest.
const SHORTEST: usize = 4;

const LONGEST: usize = 256;

// The functions that are served, as the standard numbers them, and the last number of one. No enum: any other function is told back by
// its number.
const READ: u8 = 3;

const WRITE: u8 = 16;

const LAST_FUNCTION: u8 = 127;

// Added to the function in the reply of an exception.
const EXCEPTION: u8 = 128;

// The most registers that a read may ask for.
const MOST: usize = 125;

// Two registers for each parameter.
const REGISTERS: usize = 2 * PARAMETERS;

// ---- reading a request

// A number of two bytes, the high one first.
fn word(q: &[u8], at: usize) -> usize
    requires { at + 2 ≤ length q.now }
    ensures { (result ≡ word_at q.now at) × (result < 65536) }
{
    usize::from(u16::from_be_bytes([q[at], q[at + 1]]))
}

// A read of 8 bytes.
#[tactic(auto, unfolding(crate::specs::Request::asked_read))]
fn asked_read(q: &[u8]) -> Asked
    requires { length q.now ≡ 8 }
    ensures { told_as result ≡ asked_read q.now }
{
    let start = word(q, 2);
    let count = word(q, 4);
    if !(1..=MOST).contains(&count) {
        return Asked::Exception(Exception::IllegalDataValue);
    }
    if REGISTERS < start + count {
        return Asked::Exception(Exception::IllegalDataAddress);
    }
    Asked::Read(start, count)
}

// A write of 9 bytes and its byte count.
#[tactic(auto, unfolding(crate::specs::Request::asked_write))]
fn asked_write(q: &[u8]) -> Asked
    requires { length q.now ≡ 9 + byte_count_in q.now }
    ensures { told_as result ≡ asked_write q.now }
{
    let start = word(q, 2);
    let count = word(q, 4);
    if count != 2 || q[6] != 4 {
        return Asked::Exception(Exception::IllegalDataValue);
    }
    if REGISTERS < start + count || start % 2 != 0 {
        return Asked::Exception(Exception::IllegalDataAddress);
    }
    Asked::Write(start / 2, u32::from_be_bytes([q[7], q[8], q[9], q[10]]))
}

// What a frame asks of the slave with this address.
#[tactic(auto, unfolding(crate::specs::Request::asked_frame))]
fn asked_frame(address: u8, q: &[u8]) -> Result<Asked, Silence>
    ensures { asked_as result ≡ asked_frame address q.now }
{
    let n = q.len();
    if !(SHORTEST..=LONGEST).contains(&n) {
        return Err(Silence::FrameLength);
    }
    if !crc::is_right(q) {
        return Err(Silence::Crc);
    }
    let slave = q[0];
    if slave != address {
        return Err(Silence::OtherSlave);
    }
    match q[1] {
        function if LAST_FUNCTION < function => Err(Silence::FunctionRange),
        READ if n != 8 => Err(Silence::ReadLength),
        READ => Ok(asked_read(q)),
        WRITE if n < 9 || n != 9 + usize::from(q[6]) => Err(Silence::WriteLength),
        WRITE => Ok(asked_write(q)),
        _ => Ok(Asked::Exception(Exception::IllegalFunction)),
    }
}

// What a request asks of the slave with this address; `good` if all that the unit holds is valid; so much reply room is lent.
#[tactic(auto, unfolding(crate::specs::Request::asked_of))]
fn hear(good: bool, address: u8, request: &[u8], room: usize) -> Result<Asked, Silence>
    ensures { asked_as result ≡ asked_of good address request.now room }
{
    if !good {
        return Err(Silence::InvalidRecord);
    }
    if room < ROOM {
        return Err(Silence::ShortReplyBuffer);
    }
    asked_frame(address, request)
}

// ---- building a reply

// A request that is answered is of so many bytes, and the reply has room: `hear` has tested it, and what follows requires it. The room is
// no array of ROOM bytes, since what is promised is the whole lent buffer, which would have to be put together from it again.

// The register with a number: the high word of a value, or its low word.
fn register(values: &[u32], number: usize) -> u16
    requires { number < 2 * length values.now }
    ensures { result ≡ register_at values.now number }
{
    let value = values[number / 2];
    if number % 2 == 0 {
        (value / 65536) as u16
    } else {
        (value % 65536) as u16
    }
}

// Lays the bytes of count registers from start on behind the first three bytes.
fn lay_registers(values: &[u32], start: usize, count: usize, out: &mut [u8])
    requires { (start + count ≤ 2 * length values.now) × (2 * count + 3 ≤ length out.old) }
    ensures { out.new ≡ over (take 3 out.old ++ registers values.now start count) out.old }
{
    for i in 0..count {
        let at = 2 * i + 3;
        out[at..at + 2].copy_from_slice(&register(values, start + i).to_be_bytes());
    }
}

// Lays a body, and its check behind it.
fn lay(body: &[u8], out: &mut [u8]) -> usize
    requires { length body.now + 2 ≤ length out.old }
    ensures { (result, out.new) ≡ laid body.now out.old }
{
    let n = body.len();
    out[..n].copy_from_slice(body);
    crc::seal(n, out).unwrap_or(0)
}

// The reply of an exception.
fn refuse(q: &[u8], exception: Exception, out: &mut [u8]) -> usize
    requires { (2 ≤ length q.now) × ((function_in q.now ≤ 127) × (256 ≤ length out.old)) }
    ensures { (result, out.new) ≡ laid (refusal (exception_number exception) q.now) out.old }
{
    lay(&[q[0], q[1] + EXCEPTION, u8::from(exception)], out)
}

// The reply of a read.
fn show(values: &[u32], start: usize, count: usize, q: &[u8], out: &mut [u8]) -> usize
    requires { (start + count ≤ 2 * length values.now) × ((count ≤ 125) × ((2 ≤ length q.now) × (256 ≤ length out.old))) }
    ensures { (result, out.new) ≡ laid (shown values.now start count q.now) out.old }
{
    let bytes = 2 * count;
    out[..3].copy_from_slice(&[q[0], q[1], bytes as u8]);
    lay_registers(values, start, count, out);
    crc::seal(bytes + 3, out).unwrap_or(0)
}

// The reply of a write: slave, function, start and count as they were asked.
fn echo(q: &[u8], out: &mut [u8]) -> usize
    requires { (6 ≤ length q.now) × (256 ≤ length out.old) }
    ensures { (result, out.new) ≡ laid (echoed q.now) out.old }
{
    lay(&q[..6], out)
}

// ---- answering

// A write is judged and takes effect as PC does.
fn write(before: Record, place: usize, value: u32, q: &[u8], out: &mut [u8]) -> Served<Answer>
    requires { (6 ≤ length q.now) × ((function_in q.now ≤ 127) × (256 ≤ length out.old)) }
    ensures { outcome_as result.answer (effect_as result.effect before) out.new ≡ written_of place value before q.now out.old }
{
    match command::serve_value(before, place, value) {
        Ok(writing) => Served {
            answer: Ok(echo(q, out)),
            effect: Some(writing),
        },
        Err(why) => Served {
            answer: Ok(refuse(q, Exception::from(why), out)),
            effect: None,
        },
    }
}

// Serves a request of a unit that holds this record; `good` if all that it holds is valid.
fn serve(good: bool, before: Record, request: &[u8], out: &mut [u8]) -> Served<Answer>
    ensures { outcome_as result.answer (effect_as result.effect before) out.new ≡ served_by good before request.now out.old }
{
    let answer = match hear(good, before.address, request, out.len()) {
        Err(why) => Err(why),
        Ok(Asked::Exception(exception)) => Ok(refuse(request, exception, out)),
        Ok(Asked::Read(start, count)) => Ok(show(&before.values, start, count, request, out)),
        Ok(Asked::Write(place, value)) => return write(before, place, value, request, out),
    };
    Served {
        answer: answer,
        effect: None,
    }
}

// What a slave holds: a record, alone or with a bank beside it.
pub trait Slave: Copy {
    ghost all_valid: { Self → Bool };

    ghost record_of: { Self → Record };

    ghost with: { Self → Record → Self };

    // What a call comes to, by the paper.
    ghost outcome: { Self → List ℕ → List ℕ → OutcomeOf Self };

    // All of it is valid.
    fn all_valid(self) -> bool
        ensures { result ≡ all_valid self };

    fn record(self) -> Record
        ensures { result ≡ record_of self };

    // The same with another record.
    fn with(self, after: Record) -> Self
        ensures { result ≡ with self after };

    ghost outcome_is: { (u : Self) (q o : List ℕ) → outcome u q o ≡ holding (with u) (served_by (all_valid u) (record_of u) q o) };
}

impl Slave for Record {
    ghost all_valid = { record_valid };

    ghost record_of = { λ r. r };

    ghost with = { λ r s. s };

    ghost outcome = { modbus_of };

    ghost outcome_is = { record_outcome };

    fn all_valid(self) -> bool {
        self.valid()
    }

    fn record(self) -> Record {
        self
    }

    fn with(self, after: Record) -> Record {
        after
    }
}

impl Slave for Banked {
    ghost all_valid = { banked_valid };

    ghost record_of = { λ b. b.state };

    ghost with = { λ b s. beside s b.bank };

    ghost outcome = { banked_modbus_of };

    ghost outcome_is = { banked_outcome };

    fn all_valid(self) -> bool {
        self.valid()
    }

    fn record(self) -> Record {
        self.state
    }

    fn with(self, after: Record) -> Banked {
        Banked {
            state: after,
            ..self
        }
    }
}

// One frame that fills the lent request, and one reply buffer. A silence leaves what is held and the buffer as they were; no request
// alters a bank.
pub fn call<H: Slave>(before: H, request: &[u8], out: &mut [u8]) -> Called<Answer, H>
    ensures { outcome_as result.answer result.after out.new ≡ H.outcome before request.now out.old }
{
    let record = before.record();
    let served = serve(before.all_valid(), record, request, out);
    let after = command::carry_out(record, served.effect);
    Called {
        answer: served.answer,
        after: before.with(after),
    }
}
