// The stored form of a record.
#![tactic(auto)]

ghost use Rattle.std.specs.Prelude.{◌≡◌, true, ◌+◌, ◌*◌, ◌≤◌, ◌<◌, length, get_or};
ghost use Rattle.std.proofs.lemmas.List.Edits.{sets};
ghost use Rattle.base.specs.Test.{member};
ghost use Rattle.state.specs.Parameter.{parameter_count, range_at};
ghost use Rattle.state.specs.Field.{value, level, phase_of};
ghost use Rattle.stored.specs.Layout.{alone, parameter_items, versions, current, scalars_of, scalar_place, header_width, parameters_at, item_slot, slot_of, scalar_slots, no_slot, flag_fields, bits, numbers_of};
ghost use Rattle.stored.specs.Form.{version_number, version_as, header_as, reading_as, filled_as, written_as, refusal_number, big_endian, number_of, packed, stored, stored_length, version_of, header_bytes, write_of, header_of, low_record, taken_from, body_of, read_of, number_read, alarms_at, parameter_read};

use state::{
    ACCESS_RANGE, ADDRESS_RANGE, LEVEL_RANGE, NUMBER_RANGE, PARAMETERS, PHASE_RANGE, PRESET_RANGE,
    Phase, RAW_RANGE, RECIPE_RANGE, RECIPES, Range, Record,
};
use std::array;

// The version that is written.
pub const VERSION: u8 = 2;

// The versions that are read.
#[derive(Clone, Copy)]
enum Version {
    WithoutAlarms,
    // The one that is written.
    WithAlarms,
}

impl From<Version> for u8 {
    ghost from_gives = { λ version n. n ≡ version_number version };

    fn from(version: Version) -> u8 {
        match version {
            Version::WithoutAlarms => 1,
            Version::WithAlarms => VERSION,
        }
    }
}

// Version and total length.
const HEADER: usize = 3;

// The numbers that are stored before each parameter's value and level.
#[derive(Clone, Copy)]
enum ScalarField {
    Address,
    Access,
    Phase,
    Flags,
    Recipe,
    Preset,
    Raw,
    Number,
    Alarms,
}

// In the order in which they are stored.
const SCALARS: [ScalarField; 9] = [
    ScalarField::Address,
    ScalarField::Access,
    ScalarField::Phase,
    ScalarField::Flags,
    ScalarField::Recipe,
    ScalarField::Preset,
    ScalarField::Raw,
    ScalarField::Number,
    ScalarField::Alarms,
];

// A bit for each flag.
const FLAGS_RANGE: Range = Range { low: 0, high: 31 };

// Any three bytes: which bits are used is tested apart.
const THREE_BYTES: Range = Range {
    low: 0,
    high: 0xffffff,
};

// The bits of these that no alarm has: the reserved one and the last four.
const UNUSED_BITS: u32 = 0x8f;

// Where the alarms stand, and the parameters' numbers where there are no alarms.
const ALARMS_AT: usize = HEADER + 14;

// Where the parameters' numbers begin.
const PARAMETERS_AT: usize = ALARMS_AT + 3;

// A parameter's value takes 4 bytes, its level 1.
const PARAMETERS_LENGTH: usize = 5 * PARAMETERS;

// Bytes in all, without the alarms and with them.
const LENGTH_WITHOUT_ALARMS: usize = ALARMS_AT + PARAMETERS_LENGTH;

pub const STORED_LENGTH: usize = PARAMETERS_AT + PARAMETERS_LENGTH;

// Where a number is stored, in how many bytes, and within which range.
#[derive(Clone, Copy)]
pub struct Slot {
    pub at: usize,
    pub width: usize,
    pub range: Range,
}

// Why stored bytes are refused.
#[derive(Clone, Copy, PartialEq, Eq)]
pub enum Refusal {
    // K1
    Length,
    // K2
    Version,
    // K3
    LengthField,
    // K4
    Field,
}

// The n of Kn.
impl From<Refusal> for u8 {
    ghost from_gives = { λ refusal n. (n ≡ refusal_number refusal) × (n ≤ 4) };

    fn from(refusal: Refusal) -> u8 {
        match refusal {
            Refusal::Length => 1,
            Refusal::Version => 2,
            Refusal::LengthField => 3,
            Refusal::Field => 4,
        }
    }
}

// Why a record is not written.
#[derive(Clone, Copy, PartialEq, Eq)]
pub enum WriteRefusal {
    // K5
    InvalidRecord,
    // K6
    ShortBuffer,
}

// ---- the layout: the versions, and the slots that reading and writing go by

// The version that has a length.
#[tactic(auto, using(crate::proofs::Versions::versioning))]
fn version_of(length: usize) -> Option<Version>
    ensures { version_as result ≡ version_of length }
{
    match length {
        STORED_LENGTH => Some(Version::WithAlarms),
        LENGTH_WITHOUT_ALARMS => Some(Version::WithoutAlarms),
        _ => None,
    }
}

// Where a version's parameters begin.
fn parameters_at(version: Version) -> usize
    ensures { result ≡ parameters_at (version_number version) }
{
    match version {
        Version::WithoutAlarms => ALARMS_AT,
        Version::WithAlarms => PARAMETERS_AT,
    }
}

fn slot_of(at: usize, width: usize, range: Range) -> Slot
    ensures { result ≡ slot_of at width range }
{
    Slot { at, width, range }
}

// The slot of a number before the parameters'.
#[tactic(auto, using(crate::proofs::Slots::scalar_here))]
fn scalar_slot(field: ScalarField) -> Slot
    ensures { result ≡ get_or (scalar_slots current) (scalar_place field) no_slot }
{
    match field {
        ScalarField::Address => slot_of(3, 1, ADDRESS_RANGE),
        ScalarField::Access => slot_of(4, 1, ACCESS_RANGE),
        ScalarField::Phase => slot_of(5, 1, PHASE_RANGE),
        ScalarField::Flags => slot_of(6, 1, FLAGS_RANGE),
        ScalarField::Recipe => slot_of(7, 1, RECIPE_RANGE),
        ScalarField::Preset => slot_of(8, 3, PRESET_RANGE),
        ScalarField::Raw => slot_of(11, 4, RAW_RANGE),
        ScalarField::Number => slot_of(15, 2, NUMBER_RANGE),
        ScalarField::Alarms => slot_of(ALARMS_AT, 3, THREE_BYTES),
    }
}

// The slot of the value of the parameter at a place, with its range.
fn value_slot(version: Version, i: usize, range: Range) -> Slot
    requires { (i < parameter_count) × (range ≡ range_at i) }
    ensures { result ≡ item_slot (parameters_at (version_number version) + 5 * i) (alone 4 (value i)) }
{
    slot_of(parameters_at(version) + 5 * i, 4, range)
}

fn level_slot(version: Version, i: usize) -> Slot
    requires { i < parameter_count }
    ensures { result ≡ item_slot (parameters_at (version_number version) + 5 * i + 4) (alone 1 (level i)) }
{
    slot_of(parameters_at(version) + 5 * i + 4, 1, LEVEL_RANGE)
}

// ---- numbers as bytes, high byte first

// The number that up to four bytes are.
fn number_in(s: &[u8]) -> u32
    requires { length s.now ≤ 4 }
    ensures { result ≡ number_of s.now }
{
    let mut n = 0;
    for byte in s {
        n = n * 256 + u32::from(*byte);
    }
    n
}

// Fills all of out with a number's low bytes. By index: behind `iter_mut().rev()` a proof knows nothing of what was written.
fn fill(n: u32, out: &mut [u8])
    ensures { out.new ≡ big_endian (length out.old) n }
{
    let mut rest = n;
    for i in (0..out.len()).rev() {
        out[i] = (rest % 256) as u8;
        rest /= 256;
    }
}

// ---- writing

// The flags in one number.
fn flags(r: Record) -> u8
    ensures { result ≡ bits r flag_fields }
{
    u8::from(r.keypad)
        + 2 * (u8::from(r.flow)
            + 2 * (u8::from(r.changed) + 2 * (u8::from(r.reset) + 2 * u8::from(r.powerfail))))
}

// Stores the version and the length.
fn put_header(out: &mut [u8])
    requires { 3 ≤ length out.old }
    ensures { out.new ≡ sets out.old 0 header_bytes }
{
    out[0] = VERSION;
    fill(STORED_LENGTH as u32, &mut out[1..3]);
}

// Stores a number in its slot.
fn put_number(n: u32, slot: Slot, out: &mut [u8])
    requires { slot.at + slot.width ≤ length out.old }
    ensures { (length out.new ≡ length out.old) × (out.new ≡ stored slot n out.old) }
{
    let at = slot.at;
    let end = at + slot.width;
    fill(n, &mut out[at..end]);
}

// A record's number before the parameters'.
#[tactic(auto, using(crate::proofs::Writing::number_alarms), unfolding(crate::specs::Layout::numbers_of))]
fn scalar(r: Record, field: ScalarField) -> u32
    ensures { result ≡ get_or (numbers_of (scalars_of current) r) (scalar_place field) 0 }
{
    match field {
        ScalarField::Address => u32::from(r.address),
        ScalarField::Access => u32::from(r.access),
        ScalarField::Phase => u32::from(u8::from(r.phase)),
        ScalarField::Flags => u32::from(flags(r)),
        ScalarField::Recipe => u32::from(r.recipe),
        ScalarField::Preset => r.preset,
        ScalarField::Raw => r.raw,
        ScalarField::Number => u32::from(r.number),
        // A1 to A4 in two bytes, A5 in the high half of the third
        ScalarField::Alarms => r.alarms / 8 % 65536 * 256 + r.alarms % 8 * 16,
    }
}

// The numbers but the parameters', behind the header.
fn put_scalars(r: Record, out: &mut [u8])
    requires { stored_length current ≤ length out.old }
    ensures { out.new ≡ sets out.old header_width (packed (scalars_of current) r) }
{
    for field in SCALARS {
        put_number(scalar(r, field), scalar_slot(field), out);
    }
}

// The parameters' numbers, behind those.
fn put_parameters(r: Record, out: &mut [u8])
    requires { stored_length current ≤ length out.old }
    ensures { out.new ≡ sets out.old (parameters_at current) (packed (parameter_items parameter_count) r) }
{
    for i in 0..PARAMETERS {
        put_number(
            r.values[i],
            value_slot(Version::WithAlarms, i, state::range_at(i)),
            out,
        );
        put_number(
            u32::from(r.levels[i]),
            level_slot(Version::WithAlarms, i),
            out,
        );
    }
}

// Writes the stored form to the start of out. A refusal leaves out as it was.
pub fn write(r: Record, out: &mut [u8]) -> Result<(), WriteRefusal>
    ensures { (written_as result, out.new) ≡ write_of r out.old }
{
    if !r.valid() {
        return Err(WriteRefusal::InvalidRecord);
    }
    if out.len() < STORED_LENGTH {
        return Err(WriteRefusal::ShortBuffer);
    }
    put_header(out);
    put_scalars(r, out);
    put_parameters(r, out);
    Ok(())
}

// ---- reading; each reader's answer is taken apart by let .. else, as the project has it

// Reads the version, which is the length's, and the length field.
fn read_header(s: &[u8]) -> Result<(), Refusal>
    ensures { header_as result ≡ header_of s.now }
{
    let Some(version) = version_of(s.len()) else {
        return Err(Refusal::Length);
    };
    if s[0] != u8::from(version) {
        return Err(Refusal::Version);
    }
    if number_in(&s[1..3]) as usize != s.len() {
        return Err(Refusal::LengthField);
    }
    Ok(())
}

// Reads the number in a slot, which must lie in its range.
fn read_number(s: &[u8], slot: Slot) -> Option<u32>
    requires { (slot.at + slot.width ≤ length s.now) × (slot.width ≤ 4) }
    ensures { result ≡ number_read slot s.now }
{
    let at = slot.at;
    let end = at + slot.width;
    let n = number_in(&s[at..end]);
    if !state::within(slot.range, n) {
        return None;
    }
    Some(n)
}

// No TryFrom: the phase's slot leaves no other number, and so its error would never come.
#[tactic(auto, unfolding(state::specs::Field::phase_of))]
fn phase_of(n: u32) -> Phase
    ensures { result ≡ phase_of n }
{
    match n {
        0 => Phase::Idle,
        1 => Phase::Set,
        2 => Phase::Running,
        3 => Phase::Stopped,
        _ => Phase::Done,
    }
}

// The record with every field at its low end.
pub fn low_record() -> Record
    ensures { result ≡ low_record }
{
    Record {
        address: 1,
        access: 0,
        phase: Phase::Idle,
        keypad: false,
        flow: false,
        changed: false,
        reset: false,
        powerfail: false,
        recipe: 1,
        preset: 0,
        raw: 0,
        number: 1,
        alarms: 0,
        values: array::from_fn(|i| state::range_at(i).low),
        levels: [0; PARAMETERS],
    }
}

// Reads the number of the alarms, in which no unused bit may be set; 0 where there are no alarms.
fn read_alarms(s: &[u8], version: Version) -> Option<u32>
    requires { parameters_at (version_number version) ≤ length s.now }
    ensures { result ≡ alarms_at (version_number version) s.now }
{
    let Version::WithAlarms = version else {
        return Some(0);
    };
    let Some(n) = read_number(s, scalar_slot(ScalarField::Alarms)) else {
        return None;
    };
    if n & UNUSED_BITS != 0 {
        return None;
    }
    Some(n)
}

// Reads the value and the level of the parameter at a place.
fn read_parameter(s: &[u8], version: Version, i: usize, range: Range) -> Option<(u32, u8)>
    requires { (parameters_at (version_number version) + 5 * parameter_count ≤ length s.now) × (i < parameter_count) × (range ≡ range_at i) }
    ensures { result ≡ parameter_read (parameters_at (version_number version)) i s.now }
{
    let Some(value) = read_number(s, value_slot(version, i, range)) else {
        return None;
    };
    let Some(level) = read_number(s, level_slot(version, i)) else {
        return None;
    };
    Some((value, level as u8))
}

// Reads the parameters' numbers into a record, in place: a record is long, and each copy of it takes time. Each recipe's have the
// ranges of the first's: to ask for the range at every place took twice the instructions.
fn read_parameters(s: &[u8], version: Version, r: &mut Record) -> Result<(), Refusal>
    requires { parameters_at (version_number version) + 5 * parameter_count ≤ length s.now }
    ensures { filled_as result r.new ≡ taken_from (parameters_at (version_number version)) (parameter_items parameter_count) s.now r.old }
{
    for recipe in 0..RECIPES {
        for kind in 0..3 {
            let i = 3 * recipe + kind;
            let Some((value, level)) = read_parameter(s, version, i, state::range_at(kind)) else {
                return Err(Refusal::Field);
            };
            r.values[i] = value;
            r.levels[i] = level;
        }
    }
    for i in 3 * RECIPES..PARAMETERS {
        let Some((value, level)) = read_parameter(s, version, i, state::range_at(i)) else {
            return Err(Refusal::Field);
        };
        r.values[i] = value;
        r.levels[i] = level;
    }
    Ok(())
}

// Reads the numbers behind the header, one after the other.
fn read_numbers(s: &[u8]) -> Result<Record, Refusal>
    requires { member (version_of (length s.now)) versions ≡ true }
    ensures { reading_as result ≡ body_of s.now }
{
    let Some(version) = version_of(s.len()) else {
        unreachable!();
    };
    let Some(address) = read_number(s, scalar_slot(ScalarField::Address)) else {
        return Err(Refusal::Field);
    };
    let Some(access) = read_number(s, scalar_slot(ScalarField::Access)) else {
        return Err(Refusal::Field);
    };
    let Some(phase) = read_number(s, scalar_slot(ScalarField::Phase)) else {
        return Err(Refusal::Field);
    };
    let Some(flags) = read_number(s, scalar_slot(ScalarField::Flags)) else {
        return Err(Refusal::Field);
    };
    let Some(recipe) = read_number(s, scalar_slot(ScalarField::Recipe)) else {
        return Err(Refusal::Field);
    };
    let Some(preset) = read_number(s, scalar_slot(ScalarField::Preset)) else {
        return Err(Refusal::Field);
    };
    let Some(raw) = read_number(s, scalar_slot(ScalarField::Raw)) else {
        return Err(Refusal::Field);
    };
    let Some(number) = read_number(s, scalar_slot(ScalarField::Number)) else {
        return Err(Refusal::Field);
    };
    let Some(alarms) = read_alarms(s, version) else {
        return Err(Refusal::Field);
    };
    let mut record = Record {
        address: address as u8,
        access: access as u8,
        phase: phase_of(phase),
        keypad: flags % 2 == 1,
        flow: flags / 2 % 2 == 1,
        changed: flags / 2 / 2 % 2 == 1,
        reset: flags / 2 / 2 / 2 % 2 == 1,
        powerfail: flags / 2 / 2 / 2 / 2 % 2 == 1,
        recipe: recipe as u8,
        preset,
        raw,
        number: number as u16,
        alarms: alarms / 256 * 8 + alarms / 16 % 8,
        values: [0; PARAMETERS],
        levels: [0; PARAMETERS],
    };
    let Err(refusal) = read_parameters(s, version, &mut record) else {
        return Ok(record);
    };
    Err(refusal)
}

// Reads a stored record.
pub fn read(s: &[u8]) -> Result<Record, Refusal>
    ensures { reading_as result ≡ read_of s.now }
{
    let Err(refusal) = read_header(s) else {
        return read_numbers(s);
    };
    Err(refusal)
}
