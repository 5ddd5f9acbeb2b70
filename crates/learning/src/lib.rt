// What an answered request teaches of the record.
#![tactic(auto)]

ghost use Rattle.std.specs.Prelude.{◌≡◌, [], ◌++◌, ◌≤◌, MatchOption};
ghost use Rattle.base.specs.Test.{pick};
ghost use Rattle.state.specs.Field.{phase};
ghost use Rattle.knowledge.specs.Sets.{any};
ghost use Rattle.knowledge.specs.Knowledge.{restricted};
ghost use Rattle.command.specs.Request.{level_guards, phase_guards, alarm_guards, guards_of, guards_as, changes_of, writing_as, request_as};
ghost use Rattle.learning.specs.Learn.{let_through, allowed_levels, passed, refused_by, moved, refusal_heard, acceptance_heard, taught_of};

use command::{Guards, Phases, Refusal, Request, Writing};
use knowledge::{
    ALARMS, ALL_LEVELS, ALL_PHASES, CHANGED, DONE, IDLE, KEYPAD, Knowledge, LEVELS, NO_ALARM, OFF,
    ON, PHASE, PRESET, RAW, RECIPE, RESET, RUNNING, SET, SOME_ALARM, STOPPED, VALUES,
};
use showing::alone;
use state::{LEVEL_RANGE, RECIPE_RANGE};

// ---- the refusals that look at the record

// The levels that do not refuse a write: those up to the access, none if the new level is above it.
#[tactic(auto, using(crate::proofs::Refusing::allowing), unfolding(knowledge::specs::Sets::mask_from))]
fn allowed(access: u8, above: bool) -> u32
    ensures { result ≡ allowed_levels access above }
{
    if above {
        return 0;
    }
    match access {
        0 => 0x1,
        1 => 0x3,
        2 => 0x7,
        _ => ALL_LEVELS,
    }
}

// The set of the phases that do not refuse a write.
#[tactic(auto, unfolding(knowledge::specs::Sets::mask_from))]
fn needed(phases: Phases) -> u32
    ensures { (result ≡ let_through (phase_guards (Some phases))) × (1 ≤ result) × (result ≤ any phase) }
{
    match phases {
        Phases::IdleOrDone => IDLE + DONE,
        Phases::SetOrStopped => SET + STOPPED,
        Phases::Running => RUNNING,
        Phases::SetStoppedOrDone => SET + STOPPED + DONE,
    }
}

// One of them, if it is tested, is passed by the numbers of a set.
fn pass_if(k: &mut Knowledge, tested: bool, at: usize, set: u32)
    ensures { k.new ≡ pick tested (restricted at set k.old) k.old }
{
    if tested {
        k.narrow(at, set);
    }
}

#[tactic(auto, using(crate::proofs::Refusing::phase_passing))]
fn pass_phase(k: &mut Knowledge, guard: Option<Phases>)
    ensures { k.new ≡ passed (phase_guards guard) k.old }
{
    if let Some(phases) = guard {
        k.narrow(PHASE, needed(phases));
    }
}

// The one that is numbered n is the first that applies: of NO09; of NO05 and NO09.
#[tactic(auto, using(crate::proofs::Refusing::alarms_met))]
fn refused_by_alarms(k: &mut Knowledge, tested: bool, n: u32)
    ensures { k.new ≡ refused_by n (alarm_guards tested) k.old }
{
    if tested && n == u32::from(Refusal::Alarm) {
        k.narrow(ALARMS, SOME_ALARM);
        return;
    }
    pass_if(k, tested, ALARMS, NO_ALARM);
    k.refute();
}

#[tactic(auto, using(crate::proofs::Refusing::phase_meeting), unfolding(knowledge::specs::Sets::mask_from))]
fn refused_by_phase(k: &mut Knowledge, guard: Option<Phases>, alarms: bool, n: u32)
    ensures { k.new ≡ refused_by n (phase_guards guard ++ alarm_guards alarms) k.old }
{
    if let Some(phases) = guard {
        if n == u32::from(Refusal::Phase) {
            k.narrow(PHASE, ALL_PHASES - needed(phases));
            return;
        }
        k.narrow(PHASE, needed(phases));
    }
    refused_by_alarms(k, alarms, n);
}

// The guards of a write, on a link of an access.
#[derive(Clone, Copy)]
struct LinkGuards {
    access: u8,
    guards: Guards,
}

impl LinkGuards {
    fn of(access: u8, request: Writing) -> LinkGuards
        ensures { guards_as result.access result.guards ≡ guards_of access (writing_as request) }
    {
        LinkGuards {
            access,
            guards: command::guards_of(access, request),
        }
    }

    #[tactic(auto, using(crate::proofs::Refusing::level_passing))]
    fn pass_level(self, k: &mut Knowledge)
        ensures { k.new ≡ passed (level_guards self.access self.guards.level) k.old }
    {
        if let Some(level) = self.guards.level {
            let at = k.position_of(LEVELS, level.place);
            k.narrow(at, allowed(self.access, level.above));
        }
    }

    // All of them are passed.
    #[tactic(auto, using(crate::proofs::Refusing::all_passed), unfolding(knowledge::specs::Sets::mask_from))]
    fn pass(self, k: &mut Knowledge)
        ensures { k.new ≡ passed (guards_as self.access self.guards) k.old }
    {
        pass_if(k, self.guards.keypad, KEYPAD, OFF);
        self.pass_level(k);
        pass_phase(k, self.guards.phases);
        pass_if(k, self.guards.alarms, ALARMS, NO_ALARM);
    }

    // The one that is numbered n is the first that applies: of NO07, NO05 and NO09; of all.
    #[tactic(auto, using(crate::proofs::Refusing::level_meeting), unfolding(knowledge::specs::Sets::mask_from))]
    fn refused_by_level(self, k: &mut Knowledge, n: u32)
        ensures { k.new ≡ refused_by n (level_guards self.access self.guards.level ++ (phase_guards self.guards.phases ++ alarm_guards self.guards.alarms)) k.old }
    {
        if let Some(level) = self.guards.level {
            let at = k.position_of(LEVELS, level.place);
            let passing = allowed(self.access, level.above);
            if n == u32::from(Refusal::Level) {
                k.narrow(at, ALL_LEVELS - passing);
                return;
            }
            k.narrow(at, passing);
        }
        refused_by_phase(k, self.guards.phases, self.guards.alarms, n);
    }

    #[tactic(auto, using(crate::proofs::Refusing::keypad_met), unfolding(knowledge::specs::Sets::mask_from))]
    fn refused_by(self, k: &mut Knowledge, n: u32)
        ensures { k.new ≡ refused_by n (guards_as self.access self.guards) k.old }
    {
        let keypad = self.guards.keypad;
        if keypad && n == u32::from(Refusal::Keypad) {
            k.narrow(KEYPAD, ON);
            return;
        }
        pass_if(k, keypad, KEYPAD, OFF);
        self.refused_by_level(k, n);
    }
}

// ---- what an accepted request changes
#[tactic(auto, using(crate::proofs::Moving::moving), unfolding(command::specs::Commands::row_of, knowledge::specs::Sets::mask_from, text::specs::Word::equal))]
fn move_on(k: &mut Knowledge, request: Writing)
    ensures { k.new ≡ moved (changes_of (writing_as request)) k.old }
{
    match request {
        Writing::SetValue(place, value) => {
            let at = k.position_of(VALUES, place);
            k.set_value(at, value);
        }
        Writing::SetLevel(place, level) => {
            let at = k.position_of(LEVELS, place);
            k.set(at, alone(LEVEL_RANGE, u32::from(level)));
        }
        Writing::SelectRecipe(recipe) => k.set(RECIPE, alone(RECIPE_RANGE, u32::from(recipe))),
        Writing::SetBatch(preset) => {
            k.advance();
            k.set(RESET, ON);
            k.set(RAW, 0);
            k.set(PRESET, preset);
            k.set(PHASE, SET);
        }
        Writing::Start => k.set(PHASE, RUNNING),
        Writing::Stop => k.set(PHASE, STOPPED),
        Writing::End => k.set(PHASE, IDLE),
        Writing::ClearReset => k.set(RESET, OFF),
        Writing::ClearChanged => k.set(CHANGED, OFF),
        Writing::ResetAlarms => k.reset_alarms(),
    }
}

// Nothing but a write changes the record.
#[tactic(auto, using(crate::proofs::Accepting::changing))]
fn changed(k: &mut Knowledge, request: Result<Request, Refusal>)
    ensures { k.new ≡ moved (changes_of (request_as request)) k.old }
{
    if let Ok(Request::Write(writing)) = request {
        move_on(k, writing);
    }
}

// ---- a request, or what refuses it by its text, and its reply

// The reply was NO and n.
#[tactic(auto, using(crate::proofs::Accepting::refusing))]
fn refuse(k: &mut Knowledge, access: u8, request: Result<Request, Refusal>, n: u32)
    ensures { k.new ≡ refusal_heard access (request_as request) n k.old }
{
    match request {
        Err(refusal) if n == u32::from(refusal) => {}
        Ok(Request::Write(writing)) => LinkGuards::of(access, writing).refused_by(k, n),
        Ok(Request::Read(_)) | Err(_) => k.refute(),
    }
}

// The reply was no refusal.
#[tactic(auto, using(crate::proofs::Accepting::accepting))]
fn accept(k: &mut Knowledge, access: u8, request: Result<Request, Refusal>, s: &[u8])
    ensures { k.new ≡ acceptance_heard access (request_as request) s.now k.old }
{
    let Ok(asked) = request else {
        k.refute();
        return;
    };
    match asked {
        Request::Read(reading) => showing::show(k, reading, s),
        Request::Write(writing) => {
            LinkGuards::of(access, writing).pass(k);
            showing::show_ok(k, s);
        }
    }
}

// What a request and its reply, behind the address digits, teach to one who knows the link's access: of the record as the request leaves
// it, or as it was when the reply came.
#[tactic(auto, using(crate::proofs::Accepting::learning))]
pub fn learn(
    mut k: Knowledge,
    access: u8,
    request: Result<Request, Refusal>,
    reply: &[u8],
    after: bool,
) -> Knowledge
    ensures { result ≡ taught_of after access (request_as request) reply.now k }
{
    match showing::refusal_in(reply) {
        Some(n) => refuse(&mut k, access, request, n),
        None => {
            accept(&mut k, access, request, reply);
            if after {
                changed(&mut k, request);
            }
        }
    }
    k
}
