// The controller's record: its parameters, its alarms, its validity, what the panel does to it and its phase changes.
#![tactic(auto)]

ghost use Rattle.std.specs.Prelude.{◌≡◌, ◌&&◌, ◌%◌, ◌≤◌};
ghost use Rattle.base.specs.Test.{pick};
ghost use Rattle.state.specs.Parameter.{recipes, code_at, kind_range, range_at, recipe_place, by_digits, place_of};
ghost use Rattle.state.specs.Alarm.{all_alarms, is_alarm, weight_of, lasting};
ghost use Rattle.state.specs.Field.{Field, get, put, phase_number, scalar_fields};
ghost use Rattle.state.specs.Valid.{within, all_in, valid};
ghost use Rattle.state.specs.Event.{after, next_number, batch_set, started, halted, ended, alarms_reset};

// The number of recipes. Places, counts and lengths follow from it.
pub const RECIPES: usize = 8;

// Three parameters a recipe, and the system's eight.
pub const PARAMETERS: usize = 3 * RECIPES + 8;

// What a parameter of a recipe is.
#[derive(Clone, Copy)]
pub enum ParameterKind {
    Share,
    Factor,
    LowFlow,
}

#[derive(Clone, Copy, PartialEq, Eq)]
pub enum Phase {
    Idle,
    Set,
    Running,
    Stopped,
    Done,
}

// The low end and the high end of what a field may hold. No range of the library, since the definitions go by this one (`field_range`).
#[derive(Clone, Copy)]
pub struct Range {
    pub low: u32,
    pub high: u32,
}

// ---- the range of each field but the system's parameters
pub const ADDRESS_RANGE: Range = Range { low: 1, high: 99 };

pub const ACCESS_RANGE: Range = Range { low: 0, high: 3 };

pub const PHASE_RANGE: Range = Range { low: 0, high: 4 };

pub const RECIPE_RANGE: Range = Range {
    low: 1,
    high: RECIPES as u32,
};

const FIRST_RECIPE: u16 = RECIPE_RANGE.low as u16;

const LAST_RECIPE: u16 = RECIPE_RANGE.high as u16;

pub const PRESET_RANGE: Range = Range {
    low: 0,
    high: 999999,
};

pub const RAW_RANGE: Range = Range {
    low: 0,
    high: 99999999,
};

// Where the raw total wraps.
const RAW_MODULUS: u32 = RAW_RANGE.high + 1;

pub const NUMBER_RANGE: Range = Range { low: 1, high: 9999 };

// The same as numbers of the field's own type.
const FIRST_NUMBER: u16 = NUMBER_RANGE.low as u16;

const LAST_NUMBER: u16 = NUMBER_RANGE.high as u16;

pub const ALARMS_RANGE: Range = Range {
    low: 0,
    high: 524287,
};

// Those of a recipe's parameters.
pub const SHARE_RANGE: Range = Range {
    low: 0,
    high: 10000,
};

pub const FACTOR_RANGE: Range = Range {
    low: 8000,
    high: 12000,
};

pub const LOW_FLOW_RANGE: Range = Range { low: 1, high: 9999 };

pub const LEVEL_RANGE: Range = Range { low: 0, high: 3 };

const LOW_LEVEL: u8 = LEVEL_RANGE.low as u8;

const HIGH_LEVEL: u8 = LEVEL_RANGE.high as u8;

#[derive(Clone, Copy)]
pub struct Record {
    pub address: u8,
    // The access of this link.
    pub access: u8,
    pub phase: Phase,
    pub keypad: bool,
    pub flow: bool,
    // A parameter was changed (PC).
    pub changed: bool,
    // A batch was reset (BD).
    pub reset: bool,
    // The power failed (PF).
    pub powerfail: bool,
    pub recipe: u8,
    pub preset: u32,
    pub raw: u32,
    // The batch number.
    pub number: u16,
    // The alarms that are on, a bit each, the first in the highest.
    pub alarms: u32,
    // By place. Two lists, as the definitions over any field (`Field.value`, `Field.level`) and their theorems have them.
    pub values: [u32; PARAMETERS],
    pub levels: [u8; PARAMETERS],
}

// What the panel does.
#[derive(Clone, Copy)]
pub enum Event {
    Pulses(u16),
    Still,
    KeypadOn,
    KeypadOff,
    PowerBack,
    // An alarm by its number, 1 to 19.
    AlarmOn(u16),
    AlarmOff(u16),
}

// Phases by number, in the order above.
impl From<Phase> for u8 {
    ghost from_gives = { λ p n. n ≡ phase_number p };

    fn from(p: Phase) -> u8 {
        p as u8
    }
}

// ---- parameters

// The recipe and the kind that a recipe's code names, tens for the recipe and units for the kind: 10r+1 share, 10r+2 factor, 10r+3 low flow.
fn by_digits(code: u16) -> Option<(u16, ParameterKind)>
    ensures { result ≡ by_digits recipes code }
{
    let recipe = code / 10;
    if !(FIRST_RECIPE..=LAST_RECIPE).contains(&recipe) {
        return None;
    }
    match code % 10 {
        1 => Some((recipe, ParameterKind::Share)),
        2 => Some((recipe, ParameterKind::Factor)),
        3 => Some((recipe, ParameterKind::LowFlow)),
        _ => None,
    }
}

// The place of a recipe's parameter; there is no recipe 0, and it counts as 1.
pub fn recipe_place(recipe: u16, kind: ParameterKind) -> usize
    ensures { result ≡ recipe_place recipe kind }
{
    3 * usize::from(recipe).saturating_sub(1) + kind as usize
}

// The place of the parameter with a code, in the list by rising code.
pub fn place_of(code: u16) -> Option<usize>
    ensures { result ≡ place_of code }
{
    match code {
        801..=808 => Some(3 * RECIPES + (code - 801) as usize),
        _ => {
            let (recipe, kind) = by_digits(code)?;
            Some(recipe_place(recipe, kind))
        }
    }
}

// The code of the parameter at a place; 0 beyond the last.
pub fn code_at(place: usize) -> u16
    ensures { result ≡ code_at place }
{
    if place < 3 * RECIPES {
        let recipe = place / 3 + 1;
        let units = place % 3 + 1;
        return (10 * recipe + units) as u16;
    }
    if place < PARAMETERS {
        return (801 + (place - 3 * RECIPES)) as u16;
    }
    0
}

// Those of 801 to 808.
const SYSTEM_RANGES: [Range; 8] = [
    Range { low: 0, high: 99 },
    Range { low: 0, high: 999 },
    Range { low: 0, high: 9999 },
    Range { low: 1, high: 9999 },
    Range { low: 0, high: 3 },
    Range { low: 0, high: 1 },
    Range {
        low: 1,
        high: 99999,
    },
    Range { low: 0, high: 9 },
];

// The range of the parameter at a place; 0 to 0 beyond the last.
pub fn range_at(place: usize) -> Range
    ensures { result ≡ range_at place }
{
    if PARAMETERS <= place {
        return Range { low: 0, high: 0 };
    }
    if 3 * RECIPES <= place {
        return SYSTEM_RANGES[place - 3 * RECIPES];
    }
    match place % 3 {
        0 => SHARE_RANGE,
        1 => FACTOR_RANGE,
        _ => LOW_FLOW_RANGE,
    }
}

// The number is in the range.
pub fn within(range: Range, n: u32) -> bool
    ensures { result ≡ within range n }
{
    (range.low..=range.high).contains(&n)
}

// The values of a recipe are in the ranges of their kinds.
fn recipe_valid(share: u32, factor: u32, flow: u32) -> bool
    ensures { result ≡ (within (kind_range ParameterKind.Share) share && (within (kind_range ParameterKind.Factor) factor && within (kind_range ParameterKind.LowFlow) flow)) }
{
    within(SHARE_RANGE, share) && within(FACTOR_RANGE, factor) && within(LOW_FLOW_RANGE, flow)
}

// The batch number after n.
pub fn next_number(n: u16) -> u16
    ensures { result ≡ next_number n }
{
    if n < LAST_NUMBER {
        return n + 1;
    }
    FIRST_NUMBER
}

// ---- alarms

// There are nineteen: document 000's A1 to A5, each from its 8 down, without the reserved bit.
const ALARMS: u16 = 19;

const ALL_ALARMS: u32 = ALARMS_RANGE.high;

// Those that AR leaves: all but PA and U1 to U5.
const LASTING_ALARMS: u32 = 0x7f867;

// What AR leaves of the alarms that are on.
pub fn lasting(alarms: u32) -> u32
    ensures { (result ≡ lasting alarms) × (result ≤ all_alarms) }
{
    alarms & LASTING_ALARMS
}

fn is_alarm(number: u16) -> bool
    ensures { result ≡ is_alarm number }
{
    (1..=ALARMS).contains(&number)
}

// The bit of an alarm; 0 for a number that is no alarm's.
fn alarm_bit(number: u16) -> u32
    ensures { (result ≡ pick (is_alarm number) (weight_of number) 0) × (result ≤ all_alarms) }
{
    if !is_alarm(number) {
        return 0;
    }
    1 << (ALARMS - number)
}

// ---- the record
impl Record {
    // The fields but the parameters' are in their ranges; a phase and a flag always are. By `&`: with `&&` the proof has a case for each test.
    fn scalars_valid(self) -> bool
        ensures { result ≡ all_in self scalar_fields }
    {
        within(ADDRESS_RANGE, u32::from(self.address))
            & within(ACCESS_RANGE, u32::from(self.access))
            & within(RECIPE_RANGE, u32::from(self.recipe))
            & within(PRESET_RANGE, self.preset)
            & within(RAW_RANGE, self.raw)
            & within(NUMBER_RANGE, u32::from(self.number))
            & within(ALARMS_RANGE, self.alarms)
    }

    // Each field lies in its own range.
    pub fn valid(self) -> bool
        ensures { result ≡ valid self }
    {
        if !self.scalars_valid() {
            return false;
        }
        if !base::all_between(LOW_LEVEL, HIGH_LEVEL, &self.levels) {
            return false;
        }
        for recipe in FIRST_RECIPE..=LAST_RECIPE {
            if !recipe_valid(
                self.values[recipe_place(recipe, ParameterKind::Share)],
                self.values[recipe_place(recipe, ParameterKind::Factor)],
                self.values[recipe_place(recipe, ParameterKind::LowFlow)],
            ) {
                return false;
            }
        }
        for place in 3 * RECIPES..PARAMETERS {
            if !within(range_at(place), self.values[place]) {
                return false;
            }
        }
        true
    }

    // The value and the level at a place; 0 beyond the last.
    pub fn value_at(self, place: usize) -> u32
        ensures { result ≡ get (Field.value place) self }
    {
        self.values.get(place).copied().unwrap_or(0)
    }

    pub fn level_at(self, place: usize) -> u8
        ensures { result ≡ get (Field.level place) self }
    {
        self.levels.get(place).copied().unwrap_or(0)
    }

    fn in_phase(self, p: Phase) -> Record
        ensures { result ≡ put Field.phase (phase_number p) self }
    {
        Record { phase: p, ..self }
    }

    // ---- the panel; a record that is not valid comes back unchanged

    // n pulses of the meter.
    pub fn pulses(mut self, n: u16) -> Record
        ensures { result ≡ after (Event.Pulses n) self }
    {
        if !self.valid() || n == 0 {
            return self;
        }
        let sum = self.raw + u32::from(n);
        self.flow = true;
        if self.phase == Phase::Idle {
            return self;
        }
        self.raw = sum % RAW_MODULUS;
        if self.phase == Phase::Running && self.preset <= sum {
            self.phase = Phase::Done;
        }
        self
    }

    // The flow has come to rest.
    pub fn still(mut self) -> Record
        ensures { result ≡ after Event.Still self }
    {
        if !self.valid() {
            return self;
        }
        self.flow = false;
        self
    }

    // The keypad is taken: only with no batch under way.
    pub fn keypad_on(mut self) -> Record
        ensures { result ≡ after Event.KeypadOn self }
    {
        if !self.valid() {
            return self;
        }
        if matches!(self.phase, Phase::Idle | Phase::Done) {
            self.keypad = true;
        }
        self
    }

    pub fn keypad_off(mut self) -> Record
        ensures { result ≡ after Event.KeypadOff self }
    {
        if !self.valid() {
            return self;
        }
        self.keypad = false;
        self
    }

    // The power has come back.
    pub fn power_back(mut self) -> Record
        ensures { result ≡ after Event.PowerBack self }
    {
        if !self.valid() {
            return self;
        }
        self.flow = false;
        self.powerfail = true;
        if self.phase == Phase::Running {
            self.phase = Phase::Stopped;
        }
        self
    }

    // An alarm comes on; a number that is no alarm's changes nothing.
    pub fn alarm_on(self, number: u16) -> Record
        ensures { result ≡ after (Event.AlarmOn number) self }
    {
        self.with_alarms(self.alarms | alarm_bit(number))
    }

    // The panel clears an alarm.
    pub fn alarm_off(self, number: u16) -> Record
        ensures { result ≡ after (Event.AlarmOff number) self }
    {
        self.with_alarms(self.alarms & (ALL_ALARMS - alarm_bit(number)))
    }

    fn with_alarms(mut self, alarms: u32) -> Record
        ensures { result ≡ pick (valid self) (put Field.alarms alarms self) self }
    {
        if !self.valid() {
            return self;
        }
        self.alarms = alarms;
        self
    }

    // The record after any event of the panel.
    pub fn after(self, event: Event) -> Record
        ensures { result ≡ after event self }
    {
        match event {
            Event::Pulses(n) => self.pulses(n),
            Event::Still => self.still(),
            Event::KeypadOn => self.keypad_on(),
            Event::KeypadOff => self.keypad_off(),
            Event::PowerBack => self.power_back(),
            Event::AlarmOn(number) => self.alarm_on(number),
            Event::AlarmOff(number) => self.alarm_off(number),
        }
    }

    // ---- the phase changes of the commands

    // SB: a new batch is set up.
    pub fn set_batch(mut self, preset: u32) -> Record
        ensures { result ≡ batch_set preset self }
    {
        self.number = next_number(self.number);
        self.preset = preset;
        self.raw = 0;
        self.reset = true;
        self.in_phase(Phase::Set)
    }

    // SA
    pub fn start(self) -> Record
        ensures { result ≡ started self }
    {
        self.in_phase(Phase::Running)
    }

    // SP
    pub fn stop(self) -> Record
        ensures { result ≡ halted self }
    {
        self.in_phase(Phase::Stopped)
    }

    // ET
    pub fn end(self) -> Record
        ensures { result ≡ ended self }
    {
        self.in_phase(Phase::Idle)
    }

    // AR: the lasting alarms stay.
    pub fn reset_alarms(mut self) -> Record
        ensures { result ≡ alarms_reset self }
    {
        self.alarms = lasting(self.alarms);
        self
    }
}
