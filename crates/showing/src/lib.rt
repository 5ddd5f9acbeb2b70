// What the reply to an accepted request shows of the record.
#![tactic(auto)]

ghost use Rattle.std.specs.Prelude.{◌≡◌, ◌&&◌, ◌-◌, [], ◌∷◌, ◌*◌, ◌≤◌, Some, None, eqb};
ghost use Rattle.base.specs.Text.{text};
ghost use Rattle.base.specs.Test.{pick, between};
ghost use Rattle.state.specs.Valid.{within};
ghost use Rattle.command.specs.Status.{first, second, third, fourth, characters, phase_codes, flag_codes};
ghost use Rattle.command.specs.Commands.{parameter_label, acknowledged, composition, system_alarms};
ghost use Rattle.command.specs.Request.{reading_as, reply_of};
ghost use Rattle.knowledge.specs.Sets.{mask_of};
ghost use Rattle.knowledge.specs.Knowledge.{restricted};
ghost use Rattle.showing.specs.Heard.{number_behind, refusal_in, lit, characters_formed, alarms_read};
ghost use Rattle.showing.specs.Shown.{told_by, restricted_by, bits_shown, status_shown, word_shown, codes_shown, list_shown, shown};

use command::Reading;
use knowledge::{
    ALARMS, ALL_PHASES, CHANGED, DONE, FLOW, KEYPAD, Knowledge, LAST_RECIPE, LEVELS, NO_ALARM,
    NUMBER, OFF, ON, PHASE, POWERFAIL, RAW, RECIPE, RESET, RUNNING, SET, SOME_ALARM, STOPPED,
    VALUES,
};
use state::{
    FACTOR_RANGE, LEVEL_RANGE, NUMBER_RANGE, ParameterKind, RAW_RANGE, RECIPE_RANGE, Range, within,
};
use text::{is_word, put_digits, read_number};

// Sets of phases.
const RUNNING_OR_STOPPED: u32 = RUNNING + STOPPED;

const BEGUN: u32 = SET + RUNNING + STOPPED;

// The set of n alone, if it is in the range, for numbers up to the last recipe.
pub fn alone(range: Range, n: u32) -> u32
    ensures { result ≡ mask_of (λ i. within range i && eqb i n) }
{
    if !within(range, n) || LAST_RECIPE < n {
        return 0;
    }
    1 << n
}

// ---- numbers

// A number of so many digits behind a word, and nothing else.
#[tactic(auto, using(crate::proofs::Reading::behind_words))]
fn number_behind(s: &[u8], word: &[u8], width: usize) -> Option<u32>
    ensures { result ≡ number_behind word.now width s.now }
{
    let digits = s.strip_prefix(word)?;
    if digits.len() != width {
        return None;
    }
    read_number(digits)
}

// The number of a refusal.
pub fn refusal_in(s: &[u8]) -> Option<u32>
    ensures { result ≡ refusal_in s.now }
{
    number_behind(s, b"NO", 2)
}

// A field of many numbers, of this range, holds the number that was read.
fn show_number(k: &mut Knowledge, at: usize, range: Range, read: Option<u32>)
    ensures { k.new ≡ told_by at range read k.old }
{
    match read {
        Some(n) => k.tell(at, range, n),
        None => k.refute(),
    }
}

// A field of few numbers, of this range, holds the number that was read.
fn show_small(k: &mut Knowledge, at: usize, range: Range, read: Option<u32>)
    ensures { k.new ≡ restricted_by at range read k.old }
{
    match read {
        Some(n) => k.narrow(at, alone(range, n)),
        None => k.refute(),
    }
}

// RC: the recipe, and that recipe's factor.
#[tactic(auto, using(crate::proofs::Telling::recipe_read))]
fn show_composition(k: &mut Knowledge, s: &[u8])
    ensures { k.new ≡ shown composition s.now k.old }
{
    let Some((recipe, factor)) = s.split_at_checked(5) else {
        k.refute();
        return;
    };
    match number_behind(recipe, b"RC ", 2) {
        Some(n) if within(RECIPE_RANGE, n) => {
            k.narrow(RECIPE, alone(RECIPE_RANGE, n));
            let place = state::recipe_place(n as u16, ParameterKind::Factor);
            show_number(
                k,
                VALUES + 2 * place,
                FACTOR_RANGE,
                number_behind(factor, b" ", 8),
            );
        }
        _ => k.refute(),
    }
}

// "PV ppp " or "XV ppp ".
fn parameter_label(letter: u8, place: usize) -> [u8; 7]
    ensures { result ≡ parameter_label (letter ∷ text "V ") place }
{
    let mut label = [letter, b'V', b' ', b'0', b'0', b'0', b' '];
    put_digits(u64::from(state::code_at(place)), 3, 3, &mut label);
    label
}

// ---- tests of one field

// What is left of a field's set where the test holds, and where it does not.
#[derive(Clone, Copy)]
struct Test {
    at: usize,
    with: u32,
    without: u32,
}

// An alarm is on.
const ANY_ALARM: Test = Test {
    at: ALARMS,
    with: SOME_ALARM,
    without: NO_ALARM,
};

// A flag is on.
fn on(at: usize) -> Test
    ensures { result ≡ record { at = at; with = ON; without = OFF } }
{
    Test {
        at,
        with: ON,
        without: OFF,
    }
}

// The phase is one of these.
fn phase_in(phases: u32) -> Test
    requires { phases ≤ ALL_PHASES }
    ensures { result ≡ record { at = PHASE; with = phases; without = ALL_PHASES - phases } }
{
    Test {
        at: PHASE,
        with: phases,
        without: ALL_PHASES - phases,
    }
}

impl Test {
    // It is shown to hold, or not to.
    fn show(self, holds: bool, k: &mut Knowledge)
        ensures { k.new ≡ restricted self.at (pick holds self.with self.without) k.old }
    {
        k.narrow(self.at, if holds { self.with } else { self.without });
    }
}

// ---- EQ

// No bit is set in the characters of EQ but those that tell something.
#[tactic(auto, using(crate::proofs::Status::formed))]
fn characters_formed(s: &[u8]) -> bool
    ensures { result ≡ characters_formed s.now characters }
{
    let &[a, b, c, d, e, f] = s else {
        return false;
    };
    [a & 0xf0, b & 0xf1, c & 0xfe, d & 0xf6, e, f] == *b"000000"
}

// A test holds if the bit of this weight is set.
fn show_bit(k: &mut Knowledge, x: u8, weight: u8, test: Test)
    ensures { k.new ≡ restricted test.at (pick (lit weight x) test.with test.without) k.old }
{
    test.show(x & weight == weight, k);
}

// A1 of EQ.
#[tactic(auto, using(crate::proofs::Status::bits_told), unfolding(knowledge::specs::Sets::mask_from))]
fn show_first(k: &mut Knowledge, x: u8)
    ensures { k.new ≡ bits_shown x first k.old }
{
    show_bit(k, x, 8, on(KEYPAD));
    show_bit(k, x, 4, phase_in(RUNNING));
    show_bit(k, x, 2, on(FLOW));
    show_bit(k, x, 1, phase_in(BEGUN));
}

// A2 of EQ.
#[tactic(auto, using(crate::proofs::Status::bits_told), unfolding(knowledge::specs::Sets::mask_from))]
fn show_second(k: &mut Knowledge, x: u8)
    ensures { k.new ≡ bits_shown x second k.old }
{
    show_bit(k, x, 8, phase_in(RUNNING_OR_STOPPED));
    show_bit(k, x, 4, phase_in(DONE));
    show_bit(k, x, 2, on(RESET));
}

// A3 of EQ.
#[tactic(auto, using(crate::proofs::Status::bits_told), unfolding(knowledge::specs::Sets::mask_from))]
fn show_third(k: &mut Knowledge, x: u8)
    ensures { k.new ≡ bits_shown x third k.old }
{
    show_bit(k, x, 1, ANY_ALARM);
}

// A4 of EQ.
#[tactic(auto, using(crate::proofs::Status::bits_told), unfolding(knowledge::specs::Sets::mask_from))]
fn show_fourth(k: &mut Knowledge, x: u8)
    ensures { k.new ≡ bits_shown x fourth k.old }
{
    show_bit(k, x, 8, on(CHANGED));
    show_bit(k, x, 1, on(POWERFAIL));
}

// EQ
#[tactic(auto, using(crate::proofs::Status::status_known, crate::proofs::Status::formed_six))]
fn show_status(k: &mut Knowledge, s: &[u8])
    ensures { k.new ≡ status_shown s.now k.old }
{
    if !characters_formed(s) {
        k.refute();
        return;
    }
    show_first(k, s[0]);
    show_second(k, s[1]);
    show_third(k, s[2]);
    show_fourth(k, s[3]);
}

// ---- RS: each code is read from what the one before it left of the text

// One code: it stands next, and its test holds, or neither.
#[tactic(auto, using(crate::proofs::Codes::code_read))]
fn show_code<'a>(k: &mut Knowledge, s: &'a [u8], word: &[u8], test: Test) -> &'a [u8]
    ensures { (result.now, k.new) ≡ word_shown word.now test.at test.with test.without (s.now, k.old) }
{
    let behind = s.strip_prefix(word);
    test.show(behind.is_some(), k);
    behind.unwrap_or(s)
}

// The codes of flags.
fn show_flag_codes<'a>(k: &mut Knowledge, s: &'a [u8]) -> &'a [u8]
    ensures { codes_shown phase_codes (result.now, k.new) ≡ codes_shown flag_codes (s.now, k.old) }
{
    let s = show_code(k, s, b"FL ", on(FLOW));
    let s = show_code(k, s, b"BD ", on(RESET));
    let s = show_code(k, s, b"PC ", on(CHANGED));
    let s = show_code(k, s, b"PF ", on(POWERFAIL));
    show_code(k, s, b"PW ", on(KEYPAD))
}

// The codes of phases.
fn show_phase_codes<'a>(k: &mut Knowledge, s: &'a [u8]) -> &'a [u8]
    ensures { codes_shown [] (result.now, k.new) ≡ codes_shown phase_codes (s.now, k.old) }
{
    let s = show_code(k, s, b"TD ", phase_in(DONE));
    let s = show_code(k, s, b"TP ", phase_in(RUNNING_OR_STOPPED));
    show_code(k, s, b"RL ", phase_in(RUNNING))
}

// RS
#[tactic(auto, using(crate::proofs::Codes::List_read))]
fn show_codes(k: &mut Knowledge, s: &[u8])
    ensures { k.new ≡ list_shown s.now k.old }
{
    let Some(codes) = s.strip_prefix(b"RS ") else {
        k.refute();
        return;
    };
    let flags = show_code(k, codes, b"AL ", ANY_ALARM);
    let phases = show_flag_codes(k, flags);
    let rest = show_phase_codes(k, phases);
    if !rest.is_empty() {
        k.refute();
    }
}

// ---- EA

// What a character tells, from 0x30 up to a highest one.
fn bits_in(x: u8, highest: u8) -> Option<u32>
    ensures { result ≡ pick (between 0x30 highest x) (Some (x - 0x30)) None }
{
    if !(0x30..=highest).contains(&x) {
        return None;
    }
    Some(u32::from(x - 0x30))
}

// The alarms that five characters are.
#[tactic(auto, using(crate::proofs::Alarms::alarms_read_lem))]
fn alarms_in(s: &[u8]) -> Option<u32>
    ensures { result ≡ alarms_read s.now }
{
    let &[a, b, c, d, e] = s else {
        return None;
    };
    let first = bits_in(a, 0x3f)?;
    let second = first * 16 + bits_in(b, 0x3f)?;
    let third = second * 16 + bits_in(c, 0x3f)?;
    let fourth = third * 16 + bits_in(d, 0x3f)?;
    Some(fourth * 8 + bits_in(e, 0x37)?)
}

// EA
#[tactic(auto, using(crate::proofs::Alarms::alarms_learnt))]
fn show_alarms(k: &mut Knowledge, s: &[u8])
    ensures { k.new ≡ shown system_alarms s.now k.old }
{
    match alarms_in(s) {
        Some(n) => k.tell_alarms(n),
        None => k.refute(),
    }
}

// ---- any reply that is no refusal

// OK
#[tactic(auto, using(crate::proofs::Telling::ok_read))]
pub fn show_ok(k: &mut Knowledge, s: &[u8])
    ensures { k.new ≡ shown acknowledged s.now k.old }
{
    if !is_word(s, b"OK") {
        k.refute();
    }
}

// What the reply to an accepted reading shows, behind the address digits.
#[tactic(auto, using(crate::proofs::Telling::replies), unfolding(crate::specs::Shown::shown, command::specs::Commands::row_of))]
pub fn show(k: &mut Knowledge, reading: Reading, s: &[u8])
    ensures { k.new ≡ shown (reply_of (reading_as reading)) s.now k.old }
{
    match reading {
        Reading::Status => show_status(k, s),
        Reading::Codes => show_codes(k, s),
        Reading::Number => show_number(k, NUMBER, NUMBER_RANGE, number_behind(s, b"TN ", 4)),
        Reading::Recipe => show_small(k, RECIPE, RECIPE_RANGE, number_behind(s, b"RR ", 2)),
        Reading::Composition => show_composition(k, s),
        Reading::Raw => show_number(k, RAW, RAW_RANGE, number_behind(s, b"RT R ", 8)),
        Reading::Value(place) => {
            let value = number_behind(s, &parameter_label(b'P', place), 8);
            let at = k.position_of(VALUES, place);
            show_number(k, at, state::range_at(place), value);
        }
        Reading::Level(place) => {
            let level = number_behind(s, &parameter_label(b'X', place), 1);
            let at = k.position_of(LEVELS, place);
            show_small(k, at, LEVEL_RANGE, level);
        }
        Reading::Alarms => show_alarms(k, s),
    }
}
