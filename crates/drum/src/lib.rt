// Drum change on the two-drum skid: the requests to a unit, in turn, and the replies that let it go on. A batch is set only after
// the unit has shown that it holds the picked recipe and factor.
#![tactic(auto)]

ghost use Rattle.std.specs.Prelude.{◌≡◌, ◌++◌, ◌+◌, ◌≤◌, true, false, length, MatchOption, MatchResult};
ghost use Rattle.base.specs.Lists.{over_at};
ghost use Rattle.text.specs.Word.{digits, equal};
ghost use Rattle.frame.specs.declared.Kind.TheVariants.{Minicomputer};
ghost use Rattle.frame.specs.Numbers.{built_as};
ghost use Rattle.frame.specs.Answer.{build_of};
ghost use Rattle.drum.specs.Drum.{factor_code, asks, wants, reply_frame, checked, is_step, awaits, at_step, hands_out, picked, begin_of, take_of};
ghost use Rattle.drum.specs.Numbers.{number_text, message_text, step_number, refusal_number, checked_as, outcome_as};

mod message;

use frame::{BuildRefusal, Kind, LONGEST_TEXT, ROOM};
use message::{Message, Number};
use state::{ADDRESS_RANGE, FACTOR_RANGE, PRESET_RANGE, RECIPE_RANGE, Range, within};
use text::{put_digits, put_word};

// What the foreman picked, and how far the change is.
#[derive(Clone, Copy, PartialEq, Eq)]
pub struct Change {
    pub address: u8,
    pub recipe: u8,
    pub factor: u32,
    pub preset: u32,
    // A number, since C holds it in the last byte of the state.
    // 1 to 5: the reply to NR, PC, PV, RC, SB is awaited; 6: ended; 11 to 15: stopped at step 1 to 5; 0: refused at the beginning.
    pub step: u8,
}

// Why a change refuses picks or a reply.
#[derive(Clone, Copy, PartialEq, Eq)]
pub enum Refusal {
    // Q0
    Address,
    // Q1
    Recipe,
    // Q2
    Factor,
    // Q3
    Preset,
    // Q4
    NotAwaited,
}

// Its number in document 02.
impl From<Refusal> for u8 {
    ghost from_gives = { λ refusal n. n ≡ refusal_number refusal };

    fn from(refusal: Refusal) -> u8 {
        match refusal {
            Refusal::Address => 0,
            Refusal::Recipe => 1,
            Refusal::Factor => 2,
            Refusal::Preset => 3,
            Refusal::NotAwaited => 4,
        }
    }
}

// What a change answers. One enum: a Result would need errors of two kinds, Q0 to Q4 and H1.
#[derive(Clone, Copy, PartialEq, Eq)]
pub enum Answer {
    Refused(Refusal),
    // The lent buffer is under 64 bytes (H1).
    ShortBuffer,
    // The next request stands at the start of the lent buffer: its length.
    Request(usize),
    // SB got its OK.
    Ended,
    // A wrong reply to this step's request.
    Stopped(u8),
}

// The answer, and the change as it then is, which goes in and out by value as the controller's record does.
#[derive(Clone, Copy)]
pub struct Handled {
    pub answer: Answer,
    pub after: Change,
}

// A batch of nothing is not picked.
const PRESETS: Range = Range {
    low: 1,
    high: PRESET_RANGE.high,
};

// What the last byte of the state holds where no step's reply is awaited.
const NOT_BEGUN: u8 = 0;

const ENDED: u8 = 6;

// Added to the step at which a change stopped.
const STOPPED: u8 = 10;

// ---- the steps

// What is asked, in turn.
#[derive(Clone, Copy, PartialEq, Eq)]
enum Step {
    // NR
    Recipe,
    // PC
    Factor,
    // PV
    Value,
    // RC
    Composition,
    // SB
    Batch,
}

// A number that is no step's.
#[derive(Clone, Copy)]
struct NoStep;

impl From<Step> for u8 {
    ghost from_gives = { λ step n. (n ≡ step_number step) × (n ≤ 5) };

    fn from(step: Step) -> u8 {
        match step {
            Step::Recipe => 1,
            Step::Factor => 2,
            Step::Value => 3,
            Step::Composition => 4,
            Step::Batch => 5,
        }
    }
}

impl TryFrom<u8> for Step {
    type Error = NoStep;

    ghost try_from_gives = { λ n r. MatchResult r (λ step. is_step n ≡ true × step_number step ≡ n) (λ _. is_step n ≡ false) };

    fn try_from(number: u8) -> Result<Step, NoStep> {
        match number {
            1 => Ok(Step::Recipe),
            2 => Ok(Step::Factor),
            3 => Ok(Step::Value),
            4 => Ok(Step::Composition),
            5 => Ok(Step::Batch),
            _ => Err(NoStep),
        }
    }
}

impl Step {
    // The step behind it; none behind the last.
    fn next(self) -> Option<Step>
        ensures { MatchOption result (step_number self ≡ 5) (λ step. step_number step ≡ step_number self + 1) }
    {
        match self {
            Step::Recipe => Some(Step::Factor),
            Step::Factor => Some(Step::Value),
            Step::Value => Some(Step::Composition),
            Step::Composition => Some(Step::Batch),
            Step::Batch => None,
        }
    }
}

// ---- the texts

fn two_digits(value: u32) -> Number
    ensures { (result.width ≡ 2) × (result.value ≡ value) }
{
    Number { width: 2, value }
}

impl Change {
    fn recipe_number(self) -> Number
        ensures { (result.width ≡ 2) × (result.value ≡ self.recipe) }
    {
        two_digits(u32::from(self.recipe))
    }

    // The code of the recipe's factor.
    fn code_number(self) -> Number
        ensures { (result.width ≡ 3) × (result.value ≡ factor_code self) }
    {
        Number {
            width: 3,
            value: 10 * u32::from(self.recipe) + 2,
        }
    }

    fn factor_number(self) -> Number
        ensures { (result.width ≡ 8) × (result.value ≡ self.factor) }
    {
        Number {
            width: 8,
            value: self.factor,
        }
    }

    fn preset_number(self) -> Number
        ensures { (result.width ≡ 6) × (result.value ≡ self.preset) }
    {
        Number {
            width: 6,
            value: self.preset,
        }
    }
}

impl Message {
    fn new(letters: &[u8; 2], first: Option<Number>, second: Option<Number>) -> Message
        ensures { message_text result ≡ letters.now ++ (number_text first ++ number_text second) }
    {
        Message {
            letters: *letters,
            first,
            second,
        }
    }
}

// What a step asks.
#[tactic(auto, unfolding(crate::specs::Drum::asks))]
fn asked(step: Step, s: Change) -> Message
    ensures { message_text result ≡ asks (step_number step) s }
{
    match step {
        Step::Recipe => Message::new(b"NR", Some(s.recipe_number()), None),
        Step::Factor => Message::new(b"PC", Some(s.code_number()), Some(s.factor_number())),
        Step::Value => Message::new(b"PV", Some(s.code_number()), None),
        Step::Composition => Message::new(b"RC", None, None),
        Step::Batch => Message::new(b"SB", Some(s.preset_number()), None),
    }
}

// The reply that is right.
#[tactic(auto, unfolding(crate::specs::Drum::wants))]
fn wanted(step: Step, s: Change) -> Message
    ensures { message_text result ≡ wants (step_number step) s }
{
    match step {
        Step::Recipe | Step::Factor | Step::Batch => Message::new(b"OK", None, None),
        Step::Value => Message::new(b"PV", Some(s.code_number()), Some(s.factor_number())),
        Step::Composition => Message::new(b"RC", Some(s.recipe_number()), Some(s.factor_number())),
    }
}

// ---- the frames

// A space and a number, if there is one; like the writers of text it gives the place behind what it wrote.
fn put_number(number: Option<Number>, at: usize, out: &mut [u8]) -> usize
    requires { at + 9 ≤ length out.old }
    ensures { (result ≡ at + length (number_text number)) × (out.new ≡ over_at at (number_text number) out.old) }
{
    let Some(n) = number else {
        return at;
    };
    let behind = put_word(b" ", at, out);
    put_digits(u64::from(n.value), n.width, behind, out)
}

// The address digits, and the message behind them.
fn put_text(address: u8, m: Message, out: &mut [u8]) -> usize
    requires { 22 ≤ length out.old }
    ensures { (result ≡ 0 + length (digits 2 address ++ message_text m)) × (out.new ≡ over_at 0 (digits 2 address ++ message_text m) out.old) }
{
    let letters = put_digits(u64::from(address), 2, 0, out);
    let first = put_word(&m.letters, letters, out);
    let second = put_number(m.first, first, out);
    put_number(m.second, second, out)
}

// Builds a message's frame at the start of out.
fn build(address: u8, m: Message, out: &mut [u8]) -> Result<usize, BuildRefusal>
    ensures { (built_as result, out.new) ≡ build_of Minicomputer (digits 2 address ++ message_text m) out.old }
{
    let mut text = [0u8; LONGEST_TEXT];
    let n = put_text(address, m, &mut text);
    frame::build(Kind::Minicomputer, &text[..n], out)
}

// The reply is the frame that is right.
fn is_right(step: Step, s: Change, reply: &[u8]) -> bool
    ensures { result ≡ equal reply.now (reply_frame (step_number step) s) }
{
    let mut right = [0u8; ROOM];
    let n = build(s.address, wanted(step, s), &mut right).unwrap_or(0);
    reply == &right[..n]
}

// ---- the change

// The picks are in their ranges; if not, the first that is not.
#[tactic(auto, unfolding(crate::specs::Drum::checked))]
pub fn check(s: Change) -> Result<(), Refusal>
    ensures { checked_as result ≡ checked s }
{
    if !within(ADDRESS_RANGE, u32::from(s.address)) {
        return Err(Refusal::Address);
    }
    if !within(RECIPE_RANGE, u32::from(s.recipe)) {
        return Err(Refusal::Recipe);
    }
    if !within(FACTOR_RANGE, s.factor) {
        return Err(Refusal::Factor);
    }
    if !within(PRESETS, s.preset) {
        return Err(Refusal::Preset);
    }
    Ok(())
}

impl Change {
    // The step whose reply is awaited, if the picks are in their ranges.
    #[tactic(auto, unfolding(crate::specs::Drum::awaits))]
    fn awaited(self) -> Option<Step>
        ensures { MatchOption result (awaits self ≡ false) (λ step. awaits self ≡ true × step_number step ≡ self.step) }
    {
        check(self).ok()?;
        Step::try_from(self.step).ok()
    }

    // The same picks at another step.
    fn at(self, step: u8) -> Change
        ensures { result ≡ at_step step self }
    {
        Change { step, ..self }
    }
}

// The picks, before anything is asked.
pub fn picked(address: u8, recipe: u8, factor: u32, preset: u32) -> Change
    ensures { result ≡ picked address recipe factor preset }
{
    Change {
        address,
        recipe,
        factor,
        preset,
        step: NOT_BEGUN,
    }
}

// Hands out the request of a step.
fn hand_out(step: Step, s: Change, out: &mut [u8]) -> Handled
    requires { 64 ≤ length out.old }
    ensures { outcome_as result out.new ≡ hands_out (step_number step) s out.old }
{
    let n = build(s.address, asked(step, s), out).unwrap_or(0);
    Handled {
        answer: Answer::Request(n),
        after: s.at(u8::from(step)),
    }
}

// Begins a change of what was picked: the first request, or a refusal of the picks.
#[tactic(auto, unfolding(crate::specs::Drum::begin_of))]
pub fn begin(picks: Change, out: &mut [u8]) -> Handled
    ensures { outcome_as result out.new ≡ begin_of picks.address picks.recipe picks.factor picks.preset out.old }
{
    let s = picks.at(NOT_BEGUN);
    if let Err(refusal) = check(s) {
        return Handled {
            answer: Answer::Refused(refusal),
            after: s,
        };
    }
    if out.len() < ROOM {
        return Handled {
            answer: Answer::ShortBuffer,
            after: s,
        };
    }
    hand_out(Step::Recipe, s, out)
}

// Takes the reply to the request that was handed out last: the next request, the end, a stop, or a refusal that changes nothing.
#[tactic(auto, unfolding(crate::specs::Drum::take_of))]
pub fn take(s: Change, reply: &[u8], out: &mut [u8]) -> Handled
    ensures { outcome_as result out.new ≡ take_of s reply.now out.old }
{
    let Some(step) = s.awaited() else {
        return Handled {
            answer: Answer::Refused(Refusal::NotAwaited),
            after: s,
        };
    };
    if out.len() < ROOM {
        return Handled {
            answer: Answer::ShortBuffer,
            after: s,
        };
    }
    let number = u8::from(step);
    if !is_right(step, s, reply) {
        return Handled {
            answer: Answer::Stopped(number),
            after: s.at(STOPPED + number),
        };
    }
    match step.next() {
        Some(next) => hand_out(next, s, out),
        None => Handled {
            answer: Answer::Ended,
            after: s.at(ENDED),
        },
    }
}
