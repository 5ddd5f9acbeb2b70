// The bench record, what a line changes in a record, and its fields as text.
use crate::words::{at, last_number};
use state::{Event, PARAMETERS, Phase, Record};
use std::io;
use std::io::Write;

// ---- the record

fn phase_of(b: u8) -> Phase {
    match b {
        b'0' => Phase::Idle,
        b'1' => Phase::Set,
        b'2' => Phase::Running,
        b'3' => Phase::Stopped,
        _ => Phase::Done,
    }
}

// The place of 032.
const FACTOR_OF_THREE: usize = 7;

// The place of 807.
const PULSES_PER_UNIT: usize = 30;

// The bench record with the phase and the flags that a line gives.
pub(crate) fn bench(line: &[u8]) -> Record {
    let low = stored::low_record();
    let mut values = low.values;
    let mut levels = [1; PARAMETERS];
    values[FACTOR_OF_THREE] = 10012;
    levels[PULSES_PER_UNIT] = 3;
    Record {
        address: 1,
        access: 2,
        phase: phase_of(at(line, 2)),
        keypad: at(line, 3) == b'1',
        flow: at(line, 4) == b'1',
        changed: at(line, 5) == b'1',
        reset: at(line, 6) == b'1',
        powerfail: at(line, 7) == b'1',
        recipe: 3,
        preset: 0,
        raw: 0,
        number: 9999,
        alarms: 0,
        values: values,
        levels: levels,
    }
}

pub(crate) fn small(n: u32) -> u8 {
    (n % 256) as u8
}

// The record with the field that a line names, told by the second letter of its name.
pub(crate) fn set(mut r: Record, line: &[u8]) -> Record {
    let n = last_number(line);
    match at(line, 5) {
        b'd' => r.address = small(n),
        b'c' => r.access = small(n),
        b'e' => r.recipe = small(n),
        b'a' => r.raw = n,
        b'l' => r.alarms = n,
        _ => r.values[FACTOR_OF_THREE] = n,
    }
    r
}

// ---- what the panel does

fn keypad_in(line: &[u8]) -> Event {
    if at(line, 14) == b'n' {
        return Event::KeypadOn;
    }
    Event::KeypadOff
}

fn alarm_in(line: &[u8]) -> Event {
    let number = (last_number(line) % 65536) as u16;
    if at(line, 13) == b'n' {
        return Event::AlarmOn(number);
    }
    Event::AlarmOff(number)
}

// The event that a line names, told by the second letter of its name.
pub(crate) fn event_in(line: &[u8]) -> Event {
    match at(line, 7) {
        b'u' => Event::Pulses((last_number(line) % 65536) as u16),
        b't' => Event::Still,
        b'o' => Event::PowerBack,
        b'l' => alarm_in(line),
        _ => keypad_in(line),
    }
}

// ---- fields as text

// Writes the record's phase and flags, then its fields but the parameters, and gives it back.
pub(crate) fn shown<W: Write>(writer: &mut W, r: Record) -> io::Result<Record> {
    let flags = [r.keypad, r.flow, r.changed, r.reset, r.powerfail];
    write!(writer, " {}", u8::from(r.phase))?;
    for flag in flags {
        write!(writer, "{}", u8::from(flag))?;
    }
    write!(writer, " @{} A{} R{}", r.address, r.access, r.recipe)?;
    write!(
        writer,
        " P{} W{} N{} L{}",
        r.preset, r.raw, r.number, r.alarms
    )?;
    Ok(r)
}
