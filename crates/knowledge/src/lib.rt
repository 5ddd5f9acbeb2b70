// What is known of a controller's record: one set for each field, as a code at the field's position.
#![tactic(auto)]

ghost use Rattle.std.specs.Prelude.{◌≡◌, ◌+◌, ◌*◌, ◌≤◌, min, length};
ghost use Rattle.base.specs.Test.{pick};
ghost use Rattle.state.specs.Alarm.{all_alarms};
ghost use Rattle.state.specs.Field.{changed, alarms, position, field_at, field_range};
ghost use Rattle.knowledge.specs.Sets.{several, single, kind_of, has, alone, reset_code, flag_code};
ghost use Rattle.knowledge.specs.Knowledge.{code_at, may_hold, lent_in, laid_in, dead, recoded, restricted, told, settled, advanced, alarms_left, replacing, start};

use state::{
    ACCESS_RANGE, ADDRESS_RANGE, ALARMS_RANGE, LEVEL_RANGE, NUMBER_RANGE, PARAMETERS, PHASE_RANGE,
    PRESET_RANGE, RAW_RANGE, RECIPE_RANGE, Range, within,
};

// The fields' positions; a parameter has its value and its level behind one another. Numbers, since a field is a number in the C interface
// (khuyapesh_may_hold) and its code stands at that place.
pub const ADDRESS: usize = 0;

pub const ACCESS: usize = 1;

pub const PHASE: usize = 2;

pub const KEYPAD: usize = 3;

pub const FLOW: usize = 4;

pub const CHANGED: usize = 5;

pub const RESET: usize = 6;

pub const POWERFAIL: usize = 7;

pub const RECIPE: usize = 8;

pub const PRESET: usize = 9;

pub const RAW: usize = 10;

pub const NUMBER: usize = 11;

pub const ALARMS: usize = 12;

pub const VALUES: usize = ALARMS + 1;

pub const LEVELS: usize = VALUES + 1;

pub const FIELDS: usize = VALUES + 2 * PARAMETERS;

// Of a field of many numbers, or of the alarms, nothing is known.
pub const ANY: u32 = 0xffffffff;

// All that a field of few numbers can hold: bit n for the number n. A mask, since the C interface lends and hands out the codes as numbers
// (khuyapesh_known, khuyapesh_learn).
pub const ALL_PHASES: u32 = 0x1f;

pub const OFF_OR_ON: u32 = 0x3;

// Recipes count from 1: bit 0 is clear, and there is room for 31.
pub const ALL_RECIPES: u32 = ((1 << LAST_RECIPE) - 1) << 1;

// The last recipe: no field with a set goes beyond it.
pub const LAST_RECIPE: u32 = RECIPE_RANGE.high;

pub const ALL_LEVELS: u32 = 0xf;

// Some sets of phases, and of a flag.
pub const IDLE: u32 = 0x1;

pub const SET: u32 = 0x2;

pub const RUNNING: u32 = 0x4;

pub const STOPPED: u32 = 0x8;

pub const DONE: u32 = 0x10;

pub const OFF: u32 = 0x1;

pub const ON: u32 = 0x2;

// Of the alarms: none is on, in the lowest bit; and above it just these, any of the lasting, or any.
pub const NO_ALARM: u32 = 0x1;

pub const SOME_ALARM: u32 = ANY - NO_ALARM;

const ALL_ALARMS: u32 = ALARMS_RANGE.high;

const ANY_LASTING: u32 = ALL_ALARMS + 1;

// Alive if a record is possible. A flag and not an Option of the codes, since the definitions (`dead`, `recoded`) keep the codes of a knowledge
// that is not alive, and go on with them.
#[derive(Clone, Copy)]
pub struct Knowledge {
    pub alive: bool,
    pub codes: [u32; FIELDS],
}

// Nothing but the address and the access.
#[tactic(auto, using(crate::proofs::Steps::beginning))]
pub fn begin(address: u8, access: u8) -> Knowledge
    ensures { result ≡ start address access }
{
    let mut codes = [ANY; FIELDS];
    codes[ADDRESS] = u32::from(address);
    codes[ACCESS] = u32::from(access);
    codes[PHASE] = ALL_PHASES;
    codes[KEYPAD] = OFF_OR_ON;
    codes[FLOW] = OFF_OR_ON;
    codes[CHANGED] = OFF_OR_ON;
    codes[RESET] = OFF_OR_ON;
    codes[POWERFAIL] = OFF_OR_ON;
    codes[RECIPE] = ALL_RECIPES;
    for i in 0..PARAMETERS {
        codes[LEVELS + 2 * i] = ALL_LEVELS;
    }
    Knowledge { alive: true, codes }
}

// What is known by lent codes, one for each field at the start; if these are too few, no record is possible.
#[tactic(auto, using(crate::proofs::Steps::lending))]
pub fn lent(codes: &[u32]) -> Knowledge
    ensures { result ≡ lent_in codes.now }
{
    let mut own = [0; FIELDS];
    if codes.len() < FIELDS {
        return Knowledge {
            alive: false,
            codes: own,
        };
    }
    own.copy_from_slice(&codes[..FIELDS]);
    Knowledge {
        alive: true,
        codes: own,
    }
}

// Lays codes at the start of a buffer, if it has room for all.
#[tactic(auto, using(crate::proofs::Steps::laying))]
pub fn lay(codes: [u32; FIELDS], out: &mut [u32]) -> bool
    ensures { (result, out.new) ≡ laid_in codes out.old }
{
    if out.len() < FIELDS {
        return false;
    }
    out[..FIELDS].copy_from_slice(&codes);
    true
}

// ---- the alarms

// These may be on, by the code of the alarms.
#[tactic(auto, using(crate::proofs::Steps::may_be))]
fn may_be_on(code: u32, n: u32) -> bool
    ensures { result ≡ has alarms code n }
{
    if ALL_ALARMS < n {
        return false;
    }
    if n == 0 {
        return code % 2 == 1;
    }
    match code / 2 {
        on @ 0..=ALL_ALARMS => on == n,
        ANY_LASTING => state::lasting(n) == n,
        _ => true,
    }
}

// Just these.
#[tactic(auto, using(crate::proofs::Steps::just))]
fn just(n: u32) -> u32
    requires { n ≤ all_alarms }
    ensures { result ≡ alone alarms n }
{
    if n == 0 {
        return NO_ALARM;
    }
    2 * n
}

// What AR leaves: of just these the lasting, of any any of the lasting, or none.
#[tactic(auto, using(crate::proofs::Steps::resetting))]
fn after_reset(code: u32) -> u32
    ensures { result ≡ reset_code code }
{
    match code / 2 {
        on @ 0..=ALL_ALARMS => match state::lasting(on) {
            0 => NO_ALARM,
            stay => code % 2 + 2 * stay,
        },
        ANY_LASTING => code % 2 + 2 * ANY_LASTING,
        _ => NO_ALARM + 2 * ANY_LASTING,
    }
}

// A flag, where a value becomes n: as it was if the value held is n; on if it is another; as it was or on if that is not known.
#[tactic(auto, using(crate::proofs::Steps::flagging), unfolding(crate::specs::Sets::mask_from))]
fn flag_after(flag: u32, held: u32, n: u32) -> u32
    ensures { result ≡ flag_code n held flag }
{
    if held == n {
        return flag;
    }
    if held == ANY {
        return flag | ON;
    }
    ON
}

// ---- any field, by its position

// A flag as a number: off or on.
const FLAG_RANGE: Range = Range { low: 0, high: 1 };

// The range of each field but the parameters'.
const RANGES: [Range; VALUES] = [
    ADDRESS_RANGE,
    ACCESS_RANGE,
    PHASE_RANGE,
    FLAG_RANGE,
    FLAG_RANGE,
    FLAG_RANGE,
    FLAG_RANGE,
    FLAG_RANGE,
    RECIPE_RANGE,
    PRESET_RANGE,
    RAW_RANGE,
    NUMBER_RANGE,
    ALARMS_RANGE,
];

// The range of a field; those of a parameter beyond the last count as well.
#[tactic(auto, using(crate::proofs::Membership::ranging))]
fn range_of(field: usize) -> Range
    ensures { result ≡ field_range (field_at field) }
{
    if field < VALUES {
        return RANGES[field];
    }
    if (field - VALUES) % 2 == 0 {
        return state::range_at((field - VALUES) / 2);
    }
    LEVEL_RANGE
}

// The field has few numbers, so that its set is a mask; the alarms have neither a mask nor a single number.
#[tactic(auto, using(crate::proofs::Membership::masking))]
fn has_mask(field: usize) -> bool
    requires { field ≡ position alarms → ⊥ }
    ensures { pick result several single ≡ kind_of (field_at field) }
{
    if field < VALUES {
        return (PHASE..=RECIPE).contains(&field);
    }
    (field - VALUES) % 2 != 0
}

// Whether the set of a field has a number; beyond the last field none has.
#[tactic(auto, using(crate::proofs::Membership::holding))]
pub fn may_hold(field: usize, code: u32, n: u32) -> bool
    ensures { result ≡ may_hold field code n }
{
    if FIELDS <= field {
        return false;
    }
    if field == ALARMS {
        return may_be_on(code, n);
    }
    if !within(range_of(field), n) {
        return false;
    }
    if has_mask(field) {
        return (code >> n) % 2 == 1;
    }
    code == ANY || code == n
}

// In place, so that what is known is kept once: the stack has a bound.
impl Knowledge {
    // No record is possible.
    pub fn refute(&mut self)
        ensures { self.new ≡ dead self.old }
    {
        self.alive = false;
    }

    pub fn refuted(mut self) -> Knowledge
        ensures { result ≡ dead self }
    {
        self.refute();
        self
    }

    // The code at a position, 0 beyond the last.
    #[tactic(auto, unfolding(crate::specs::Knowledge::code_at))]
    pub fn code(&self, at: usize) -> u32
        ensures { result ≡ code_at at self.now }
    {
        self.codes.get(at).copied().unwrap_or(0)
    }

    // Another code at a position; beyond the last nothing changes.
    #[tactic(auto, using(crate::proofs::Steps::put_beyond))]
    pub fn set(&mut self, at: usize, code: u32)
        ensures { self.new ≡ recoded at code self.old }
    {
        if at < FIELDS {
            self.codes[at] = code;
        }
    }

    pub fn put(mut self, at: usize, code: u32) -> Knowledge
        ensures { result ≡ recoded at code self }
    {
        self.set(at, code);
        self
    }

    // Where a parameter's value or level stands, from that of the first on; those beyond the last stand at the end.
    pub fn position_of(&self, first: usize, place: usize) -> usize
        ensures { result ≡ min (first + 2 * place) (length self.now.codes) }
    {
        first
            .saturating_add(place.saturating_mul(2))
            .min(self.codes.len())
    }

    // A field of few numbers is in the mask.
    #[tactic(auto, using(crate::proofs::Steps::restricting))]
    pub fn narrow(&mut self, at: usize, mask: u32)
        ensures { self.new ≡ restricted at mask self.old }
    {
        let left = self.code(at) & mask;
        if left == 0 {
            self.refute();
        } else {
            self.set(at, left);
        }
    }

    // A field of many numbers, of this range, holds n.
    #[tactic(auto, using(crate::proofs::Steps::telling))]
    pub fn tell(&mut self, at: usize, range: Range, n: u32)
        ensures { self.new ≡ told at range n self.old }
    {
        let code = self.code(at);
        if within(range, n) && (code == ANY || code == n) {
            self.set(at, n);
        } else {
            self.refute();
        }
    }

    // Just these alarms are on.
    #[tactic(auto, using(crate::proofs::Steps::settling, crate::proofs::Codes::has_below))]
    pub fn tell_alarms(&mut self, n: u32)
        ensures { self.new ≡ settled alarms n self.old }
    {
        if may_be_on(self.code(ALARMS), n) {
            self.set(ALARMS, just(n));
        } else {
            self.refute();
        }
    }

    // AR: the lasting alarms stay.
    #[tactic(auto, using(crate::proofs::Steps::reset_stored))]
    pub fn reset_alarms(&mut self)
        ensures { self.new ≡ alarms_left self.old }
    {
        let left = after_reset(self.code(ALARMS));
        self.set(ALARMS, left);
    }

    // PC: a value becomes n, and "changed" is switched on if that differs from the value held.
    #[tactic(auto, unfolding(crate::specs::Knowledge::replacing))]
    pub fn set_value(&mut self, at: usize, n: u32)
        ensures { self.new ≡ replacing at n (position changed) self.old }
    {
        let flag = flag_after(self.code(CHANGED), self.code(at), n);
        self.set(CHANGED, flag);
        self.set(at, n);
    }

    // The batch number goes on by one, the last to the first.
    #[tactic(auto, using(crate::proofs::Steps::advancing))]
    pub fn advance(&mut self)
        ensures { self.new ≡ advanced self.old }
    {
        let next = match self.code(NUMBER) {
            ANY => ANY,
            n if n < NUMBER_RANGE.high => n + 1,
            _ => NUMBER_RANGE.low,
        };
        self.set(NUMBER, next);
    }
}
