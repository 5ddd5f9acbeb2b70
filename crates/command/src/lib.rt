// A request's text as a value, what refuses it, and what it changes.
#![tactic(auto)]

ghost use Rattle.std.specs.Prelude.{◌≡◌, ◌≤◌, ◌<◌, length};
ghost use Rattle.state.specs.Field.{Field, get, put};
ghost use Rattle.base.specs.Test.{pick};
ghost use Rattle.command.specs.Commands.{RT, PC, XC, NR, SB, RE, nothing, a_place, code_in, applied};
ghost use Rattle.command.specs.Refusals.{listed};
ghost use Rattle.command.specs.Request.{refused, last_of, numbers_of, whole, asked_for, asked_in, asked_with, guards_of, guarded, plain_guards, keypad_guards, level_guards, phase_guards, alarm_guards, guards_as, changes_of, served_of, batch_in, refusal_number, decision_as, request_as, writing_as, reading_as, to_write, effect_of, effect_as, served_as};

use state::{LEVEL_RANGE, PARAMETERS, Phase, RECIPE_RANGE, Record, place_of, within};
use text::{read_number, word_at};

// What a request asks to be shown; a parameter is given by its place.
#[derive(Clone, Copy)]
pub enum Reading {
    // EQ
    Status,
    // RS
    Codes,
    // TN
    Number,
    // RR
    Recipe,
    // RC
    Composition,
    // RT R
    Raw,
    // PV
    Value(usize),
    // XV
    Level(usize),
    // EA
    Alarms,
}

// What a request asks to be changed.
#[derive(Clone, Copy)]
pub enum Writing {
    // PC
    SetValue(usize, u32),
    // XC
    SetLevel(usize, u8),
    // NR
    SelectRecipe(u8),
    // SB
    SetBatch(u32),
    // SA
    Start,
    // SP
    Stop,
    // ET
    End,
    // RE BD
    ClearReset,
    // RE PC
    ClearChanged,
    // AR
    ResetAlarms,
}

// What a text asks for, its numbers in range.
#[derive(Clone, Copy)]
pub enum Request {
    Read(Reading),
    Write(Writing),
}

// Why a request is refused, whatever the record or by it.
#[derive(Clone, Copy, PartialEq, Eq)]
pub enum Refusal {
    // NO00
    UnknownCode,
    // NO01
    Malformed,
    // NO02
    Keypad,
    // NO04
    UnknownParameter,
    // NO05
    Phase,
    // NO06
    Range,
    // NO07
    Level,
    // NO08
    NotServed,
    // NO30
    UnknownRecipe,
    // NO09
    Alarm,
}

// The number that goes out with a refusal.
impl From<Refusal> for u32 {
    ghost from_gives = { λ refusal n. n ≡ refusal_number refusal };

    fn from(refusal: Refusal) -> u32 {
        match refusal {
            Refusal::UnknownCode => 0,
            Refusal::Malformed => 1,
            Refusal::Keypad => 2,
            Refusal::UnknownParameter => 4,
            Refusal::Phase => 5,
            Refusal::Range => 6,
            Refusal::Level => 7,
            Refusal::NotServed => 8,
            Refusal::UnknownRecipe => 30,
            Refusal::Alarm => 9,
        }
    }
}

// The phases in which a write is not refused.
#[derive(Clone, Copy)]
pub enum Phases {
    IdleOrDone,
    SetOrStopped,
    Running,
    SetStoppedOrDone,
}

// NO07: the level at a place; or that a new level is above the access.
#[derive(Clone, Copy)]
pub struct LevelGuard {
    pub place: usize,
    pub above: bool,
}

// What may refuse a write by the record.
#[derive(Clone, Copy)]
pub struct Guards {
    // NO02: the keypad.
    pub keypad: bool,
    pub level: Option<LevelGuard>,
    // NO05
    pub phases: Option<Phases>,
    // NO09: whether no alarm may be on.
    pub alarms: bool,
}

const SPACE: u8 = 0x20;

// The codes, two letters as one number: document 01 names this form.
const EQ: u32 = 0x4551;

const RS: u32 = 0x5253;

const TN: u32 = 0x544e;

const RR: u32 = 0x5252;

const RC: u32 = 0x5243;

const RT: u32 = 0x5254;

const PV: u32 = 0x5056;

const XV: u32 = 0x5856;

const PC: u32 = 0x5043;

const XC: u32 = 0x5843;

const NR: u32 = 0x4e52;

const SB: u32 = 0x5342;

const SA: u32 = 0x5341;

const SP: u32 = 0x5350;

const ET: u32 = 0x4554;

const RE: u32 = 0x5245;

const EA: u32 = 0x4541;

const AR: u32 = 0x4152;

// ---- reading a text

// A number of least to most digits behind a space, and nothing else; with a most of 0 nothing at all, which counts as 0.
#[tactic(auto, using(crate::proofs::Parsing::last_form))]
fn last_number(s: &[u8], least: usize, most: usize) -> Result<u32, Refusal>
    requires { most ≤ 8 }
    ensures { result ≡ last_of least most s.now }
{
    match s {
        [] if most == 0 => Ok(0),
        [SPACE, digits @ ..] if 0 < most && least <= digits.len() && digits.len() <= most => {
            read_number(digits).ok_or(Refusal::Malformed)
        }
        _ => Err(Refusal::Malformed),
    }
}

// The place of a parameter code of three digits behind a space, beyond the last for a code that is not in the list; and then as above.
#[tactic(auto, using(crate::proofs::Parsing::parameter_form, crate::proofs::Parsing::number_small, crate::proofs::Parsing::place_or_none))]
fn parameter_and(s: &[u8], least: usize, most: usize) -> Result<(usize, u32), Refusal>
    requires { most ≤ 8 }
    ensures { result ≡ numbers_of least most s.now }
{
    let [SPACE, a, b, c, rest @ ..] = s else {
        return Err(Refusal::Malformed);
    };
    let code = read_number(&[*a, *b, *c]).ok_or(Refusal::Malformed)?;
    let last = last_number(rest, least, most)?;
    Ok((place_of(code as u16).unwrap_or(PARAMETERS), last))
}

// The request if nothing follows the code.
#[tactic(auto, using(crate::proofs::Parsing::alone_form))]
fn alone(s: &[u8], request: Request) -> Result<Request, Refusal>
    ensures { result ≡ whole nothing s.now request }
{
    if s.is_empty() {
        Ok(request)
    } else {
        Err(Refusal::Malformed)
    }
}

// RT: the raw volume is served, four others are not.
#[tactic(auto, using(crate::proofs::Parsing::volume_form))]
fn volume(s: &[u8]) -> Result<Request, Refusal>
    ensures { request_as result ≡ asked_for RT s.now }
{
    match s {
        b" R" => Ok(Request::Read(Reading::Raw)),
        b" G" | b" N" | b" P" | b" M" => Err(Refusal::NotServed),
        _ => Err(Refusal::Malformed),
    }
}

// RE: two flags are cleared by the host, the power fail flag is not.
#[tactic(auto, using(crate::proofs::Parsing::flag_form))]
fn flag_to_clear(s: &[u8]) -> Result<Request, Refusal>
    ensures { request_as result ≡ asked_for RE s.now }
{
    match s {
        b" BD" => Ok(Request::Write(Writing::ClearReset)),
        b" PC" => Ok(Request::Write(Writing::ClearChanged)),
        b" PF" => Err(Refusal::NotServed),
        _ => Err(Refusal::Malformed),
    }
}

// PV, XV: a place beyond the last is not in the list.
fn at_place(place: usize, reading: Reading) -> Result<Request, Refusal>
    ensures { request_as result ≡ pick (listed place) (reading_as reading) (refused 4) }
{
    if place < PARAMETERS {
        Ok(Request::Read(reading))
    } else {
        Err(Refusal::UnknownParameter)
    }
}

// PC by place and value.
#[tactic(auto, using(crate::proofs::Parsing::asking))]
pub fn ask_value(place: usize, value: u32) -> Result<Writing, Refusal>
    ensures { request_as (to_write result) ≡ asked_with PC (a_place place value) }
{
    if PARAMETERS <= place {
        return Err(Refusal::UnknownParameter);
    }
    if within(state::range_at(place), value) {
        return Ok(Writing::SetValue(place, value));
    }
    Err(Refusal::Range)
}

// XC by place and level.
#[tactic(auto, using(crate::proofs::Parsing::asking))]
fn ask_level(place: usize, level: u32) -> Result<Writing, Refusal>
    ensures { request_as (to_write result) ≡ asked_with XC (a_place place level) }
{
    if PARAMETERS <= place {
        return Err(Refusal::UnknownParameter);
    }
    if level <= LEVEL_RANGE.high {
        return Ok(Writing::SetLevel(place, level as u8));
    }
    Err(Refusal::Range)
}

// NR
#[tactic(auto, using(crate::proofs::Parsing::asking))]
fn ask_recipe(recipe: u32) -> Result<Writing, Refusal>
    ensures { request_as (to_write result) ≡ asked_with NR (a_place 0 recipe) }
{
    if within(RECIPE_RANGE, recipe) {
        return Ok(Writing::SelectRecipe(recipe as u8));
    }
    Err(Refusal::UnknownRecipe)
}

// SB
#[tactic(auto, using(crate::proofs::Parsing::asking))]
fn ask_batch(preset: u32) -> Result<Writing, Refusal>
    ensures { request_as (to_write result) ≡ asked_with SB (a_place 0 preset) }
{
    if preset == 0 {
        return Err(Refusal::Range);
    }
    Ok(Writing::SetBatch(preset))
}
// What a code and what stands behind it ask for.
#[tactic(auto, using(crate::proofs::Parsing::unknown, crate::proofs::Parsing::forms))]
fn ask(code: u32, rest: &[u8]) -> Result<Request, Refusal>
    ensures { request_as result ≡ asked_for code rest.now }
{
    match code {
        EQ => alone(rest, Request::Read(Reading::Status)),
        RS => alone(rest, Request::Read(Reading::Codes)),
        TN => alone(rest, Request::Read(Reading::Number)),
        RR => alone(rest, Request::Read(Reading::Recipe)),
        RC => alone(rest, Request::Read(Reading::Composition)),
        RT => volume(rest),
        PV => {
            let (place, _) = parameter_and(rest, 0, 0)?;
            at_place(place, Reading::Value(place))
        }
        XV => {
            let (place, _) = parameter_and(rest, 0, 0)?;
            at_place(place, Reading::Level(place))
        }
        PC => {
            let (place, value) = parameter_and(rest, 1, 8)?;
            Ok(Request::Write(ask_value(place, value)?))
        }
        XC => {
            let (place, level) = parameter_and(rest, 1, 1)?;
            Ok(Request::Write(ask_level(place, level)?))
        }
        NR => {
            let recipe = last_number(rest, 2, 2)?;
            Ok(Request::Write(ask_recipe(recipe)?))
        }
        SB => {
            let preset = last_number(rest, 1, 6)?;
            Ok(Request::Write(ask_batch(preset)?))
        }
        SA => alone(rest, Request::Write(Writing::Start)),
        SP => alone(rest, Request::Write(Writing::Stop)),
        ET => alone(rest, Request::Write(Writing::End)),
        RE => flag_to_clear(rest),
        EA => alone(rest, Request::Read(Reading::Alarms)),
        AR => alone(rest, Request::Write(Writing::ResetAlarms)),
        _ => Err(Refusal::UnknownCode),
    }
}

// What a text asks for.
#[tactic(auto, using(crate::proofs::Parsing::parsed_short, crate::proofs::Parsing::behind_is), unfolding(crate::specs::Request::asked_in))]
pub fn parse(text: &[u8]) -> Result<Request, Refusal>
    ensures { request_as result ≡ asked_in text.now }
{
    if text.len() < 4 {
        return Err(Refusal::UnknownCode);
    }
    ask(code_in(text), &text[4..])
}

// The two letters behind the address digits, as one number.
#[tactic(auto, unfolding(crate::specs::Commands::code_in))]
fn code_in(text: &[u8]) -> u32
    requires { 4 ≤ length text.now }
    ensures { result ≡ code_in text.now }
{
    u32::from(text[2]) * 256 + u32::from(text[3])
}

// The kept batch that a text asks for, by its number: RT R and three digits. Only a controller with a bank serves it.
#[tactic(auto, using(crate::proofs::Beside::batch_form))]
pub fn batch_asked(text: &[u8]) -> Option<u32>
    ensures { result ≡ batch_in text.now }
{
    if text.len() != 10 || code_in(text) != RT || !word_at(text, 4, b" R ") {
        return None;
    }
    read_number(&text[7..])
}

// ---- what refuses a write by the record

fn plain(keypad: bool, phases: Option<Phases>) -> Guards
    ensures { result ≡ plain_guards keypad phases }
{
    Guards {
        keypad,
        level: None,
        phases,
        alarms: false,
    }
}

// The guards of a write on a link of this access.
#[tactic(auto, unfolding(crate::specs::Request::guards_in))]
pub fn guards_of(access: u8, request: Writing) -> Guards
    ensures { guards_as access result ≡ guards_of access (writing_as request) }
{
    match request {
        Writing::SetValue(place, _) => Guards {
            level: Some(LevelGuard {
                place,
                above: false,
            }),
            ..plain(true, Some(Phases::IdleOrDone))
        },
        Writing::SetLevel(place, level) => Guards {
            level: Some(LevelGuard {
                place,
                above: access < level,
            }),
            ..plain(true, None)
        },
        Writing::SelectRecipe(_) | Writing::SetBatch(_) => plain(true, Some(Phases::IdleOrDone)),
        Writing::Start => Guards {
            alarms: true,
            ..plain(true, Some(Phases::SetOrStopped))
        },
        Writing::Stop => plain(false, Some(Phases::Running)),
        Writing::End => plain(true, Some(Phases::SetStoppedOrDone)),
        Writing::ClearReset | Writing::ClearChanged | Writing::ResetAlarms => plain(true, None),
    }
}

// NO02
#[tactic(auto, using(crate::proofs::Serving::keypad_form))]
fn by_keypad(r: Record, tested: bool) -> Result<(), Refusal>
    ensures { decision_as result ≡ guarded (keypad_guards tested) r }
{
    if tested && r.keypad {
        return Err(Refusal::Keypad);
    }
    Ok(())
}

// NO07
#[tactic(auto, using(crate::proofs::Serving::level_form, crate::proofs::Serving::unguarded))]
fn by_level(r: Record, guard: Option<LevelGuard>) -> Result<(), Refusal>
    ensures { decision_as result ≡ guarded (level_guards (get Field.access r) guard) r }
{
    if let Some(level) = guard
        && (level.above || r.access < r.level_at(level.place))
    {
        return Err(Refusal::Level);
    }
    Ok(())
}

// NO05
#[tactic(auto, using(crate::proofs::Serving::phase_form, crate::proofs::Serving::unguarded))]
fn by_phase(r: Record, guard: Option<Phases>) -> Result<(), Refusal>
    ensures { decision_as result ≡ guarded (phase_guards guard) r }
{
    let Some(phases) = guard else {
        return Ok(());
    };
    let right = match phases {
        Phases::IdleOrDone => matches!(r.phase, Phase::Idle | Phase::Done),
        Phases::SetOrStopped => matches!(r.phase, Phase::Set | Phase::Stopped),
        Phases::Running => r.phase == Phase::Running,
        Phases::SetStoppedOrDone => matches!(r.phase, Phase::Set | Phase::Stopped | Phase::Done),
    };
    if !right {
        return Err(Refusal::Phase);
    }
    Ok(())
}

// NO09
#[tactic(auto, using(crate::proofs::Serving::alarm_form))]
fn by_alarms(r: Record, tested: bool) -> Result<(), Refusal>
    ensures { decision_as result ≡ guarded (alarm_guards tested) r }
{
    if tested && r.alarms != 0 {
        return Err(Refusal::Alarm);
    }
    Ok(())
}

// The first that refuses.
#[tactic(auto, using(crate::proofs::Serving::guards_then))]
fn by_record(r: Record, guards: Guards) -> Result<(), Refusal>
    ensures { decision_as result ≡ guarded (guards_as (get Field.access r) guards) r }
{
    by_keypad(r, guards.keypad)?;
    by_level(r, guards.level)?;
    by_phase(r, guards.phases)?;
    by_alarms(r, guards.alarms)
}

// ---- what an accepted write changes

#[tactic(auto, using(crate::proofs::Serving::storing))]
fn set_value(r: &mut Record, place: usize, value: u32)
    ensures { r.new ≡ applied (changes_of (writing_as (Writing.SetValue place value))) r.old }
{
    // Switched on exactly if the value differs from the one held; else the flag stays.
    r.changed |= r.value_at(place) != value;
    if place < PARAMETERS {
        r.values[place] = value;
    }
}

#[tactic(auto, using(crate::proofs::Serving::storing))]
fn set_level(r: &mut Record, place: usize, level: u8)
    ensures { r.new ≡ put (Field.level place) level r.old }
{
    if place < PARAMETERS {
        r.levels[place] = level;
    }
}

// In place: a record is long, and each copy of it takes time.
#[tactic(auto, using(crate::proofs::Serving::applied_as), unfolding(crate::specs::Commands::applied, crate::specs::Commands::row_of, state::specs::Field::put, state::specs::Event::batch_set, text::specs::Word::equal))]
pub fn take(r: &mut Record, request: Writing)
    ensures { r.new ≡ applied (changes_of (writing_as request)) r.old }
{
    match request {
        Writing::SetValue(place, value) => set_value(r, place, value),
        Writing::SetLevel(place, level) => set_level(r, place, level),
        Writing::SelectRecipe(recipe) => r.recipe = recipe,
        Writing::SetBatch(preset) => *r = r.set_batch(preset),
        Writing::Start => *r = r.start(),
        Writing::Stop => *r = r.stop(),
        Writing::End => *r = r.end(),
        Writing::ClearReset => r.reset = false,
        Writing::ClearChanged => r.changed = false,
        Writing::ResetAlarms => *r = r.reset_alarms(),
    }
}

pub fn apply(mut r: Record, request: Writing) -> Record
    ensures { result ≡ applied (changes_of (writing_as request)) r }
{
    take(&mut r, request);
    r
}

// ---- a request served

// An answer, and what the record has still to take: a write that is accepted.
#[derive(Clone, Copy)]
pub struct Served<A> {
    pub answer: A,
    pub effect: Option<Writing>,
}

// A write, if the record does not refuse it.
#[tactic(auto, using(crate::proofs::Serving::write_form))]
fn serve_write(r: Record, request: Writing) -> Result<Writing, Refusal>
    ensures { served_as (to_write result) r ≡ served_of (writing_as request) r }
{
    by_record(r, guards_of(r.access, request))?;
    Ok(request)
}

// PC by place and value. Not by `serve`: with a caller more the compiler no longer lays `serve` into its first one, and every request
// of the Smith link then copies the record once more (80 instructions).
#[tactic(auto, using(crate::proofs::Serving::refusal_served))]
pub fn serve_value(r: Record, place: usize, value: u32) -> Result<Writing, Refusal>
    ensures { served_as (to_write result) r ≡ served_of (asked_with PC (a_place place value)) r }
{
    serve_write(r, ask_value(place, value)?)
}

// Any request, if neither its text nor the record refuses it.
#[tactic(auto, using(crate::proofs::Serving::reading_served, crate::proofs::Serving::refusal_served))]
pub fn serve(r: Record, request: Result<Request, Refusal>) -> Result<Request, Refusal>
    ensures { served_as result r ≡ served_of (request_as request) r }
{
    match request? {
        Request::Read(reading) => Ok(Request::Read(reading)),
        Request::Write(writing) => Ok(Request::Write(serve_write(r, writing)?)),
    }
}

// What the record has still to take of it: a refusal and a read have no effect.
pub fn effect_of(served: Result<Request, Refusal>) -> Option<Writing>
    ensures { result ≡ effect_of served }
{
    match served {
        Ok(Request::Write(writing)) => Some(writing),
        _ => None,
    }
}

// The record afterwards.
pub fn carry_out(r: Record, effect: Option<Writing>) -> Record
    ensures { result ≡ effect_as effect r }
{
    match effect {
        None => r,
        Some(writing) => apply(r, writing),
    }
}
