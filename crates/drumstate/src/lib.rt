// A drum change whose state is eight bytes in lent memory.
#![tactic(auto)]

ghost use Rattle.std.specs.Prelude.{◌≡◌, length};
ghost use Rattle.drum.specs.Numbers.{checked_as, told_as};
ghost use Rattle.drum.specs.Turns.{is_taken};
ghost use Rattle.drumstate.specs.State.{change_for, state_of, saved_in, no_state, left_as, begin_of, take_of};

use drum::{Answer, Change, Handled, Refusal};

// Bytes of a state.
const STATE: usize = 8;

// The change that a state is; none for another length.
#[tactic(auto, using(crate::proofs::Laws::state_none, crate::proofs::Laws::change_read))]
fn change_in(state: &[u8]) -> Option<Change>
    ensures { result ≡ change_for state.now }
{
    let &[
        address,
        recipe,
        factor1,
        factor0,
        preset2,
        preset1,
        preset0,
        step,
    ] = state
    else {
        return None;
    };
    Some(Change {
        address,
        recipe,
        factor: u32::from_be_bytes([0, 0, factor1, factor0]),
        preset: u32::from_be_bytes([0, preset2, preset1, preset0]),
        step,
    })
}

#[tactic(auto, using(crate::proofs::Laws::change_put))]
fn put_change(s: Change, state: &mut [u8])
    requires { length state.old ≡ 8 }
    ensures { state.new ≡ state_of s }
{
    let [_, _, factor1, factor0] = s.factor.to_be_bytes();
    let [_, preset2, preset1, preset0] = s.preset.to_be_bytes();
    state.copy_from_slice(&[
        s.address, s.recipe, factor1, factor0, preset2, preset1, preset0, s.step,
    ]);
}

// The answer leaves another state: it is no refusal.
fn moves(answer: Answer) -> bool
    ensures { result ≡ is_taken (told_as answer) }
{
    !matches!(answer, Answer::Refused(_) | Answer::ShortBuffer)
}

// Stores the state that an answer leaves; a refusal leaves the bytes as they were.
#[tactic(auto, using(crate::proofs::Laws::saved, crate::proofs::Laws::kept))]
fn save(handled: Handled, state: &mut [u8]) -> Answer
    requires { length state.old ≡ 8 }
    ensures { (result ≡ handled.answer) × (state.new ≡ saved_in (told_as handled.answer) handled.after state.old) }
{
    let answer = handled.answer;
    if moves(answer) {
        put_change(handled.after, state);
    }
    answer
}

// What a change answers that has no state: the first pick that is out of its range, or Q4.
fn no_state(picks: Result<(), Refusal>) -> Answer
    ensures { told_as result ≡ no_state (checked_as picks) }
{
    match picks {
        Ok(()) => Answer::Refused(Refusal::NotAwaited),
        Err(why) => Answer::Refused(why),
    }
}

// Begins a change of what was picked.
pub fn begin(picks: Change, state: &mut [u8], request: &mut [u8]) -> Answer
    ensures { left_as result state.new request.new ≡ begin_of picks.address picks.recipe picks.factor picks.preset state.old request.old }
{
    if state.len() != STATE {
        return no_state(drum::check(picks));
    }
    save(drum::begin(picks, request), state)
}

// Takes the reply to the request that was handed out last.
pub fn take(state: &mut [u8], reply: &[u8], request: &mut [u8]) -> Answer
    ensures { left_as result state.new request.new ≡ take_of state.old reply.now request.old }
{
    let Some(s) = change_in(state) else {
        return Answer::Refused(Refusal::NotAwaited);
    };
    save(drum::take(s, reply, request), state)
}
