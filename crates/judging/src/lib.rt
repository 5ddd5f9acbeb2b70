// The judge: whether any correct controller could have produced a recording, and if not, where it broke and why; and what is known of
// the controller's record on the way.
#![tactic(auto)]

ghost use Rattle.std.specs.Prelude.{◌≡◌};
ghost use Rattle.recording.specs.Statement.{Demand3};
ghost use Rattle.recording.specs.Known.{RightlyTold, RightlyReasoned};
ghost use Rattle.judging.specs.Judge.{judgement_as, judgement_of, known_as, known_of, told_by, caused_as, why_of, reasoned_by, Followed, WellFormed, Breaks};

use hearing::{Exchange, Link};
use knowledge::{FIELDS, Knowledge};
use reason::Reason;
use recording::{Recorded, Refusal};

// Fits N, refuted at I of N, or not judged at I of N.
#[derive(Clone, Copy)]
pub enum Judgement {
    Fits(usize),
    Refuted(usize, usize),
    NotJudged(usize, usize),
}

// The code of each field's set, the exchange that refutes, or the one at which it is not judged.
#[derive(Clone, Copy)]
pub enum Told {
    Sets([u32; FIELDS]),
    Refuted(usize),
    NotJudged(usize),
}

// Fits N, not judged at I of N, or refuted at I of N and why. Not one type with Judgement, over what a refutation holds: every reader of a
// Judgement would have to name the () that it held.
#[derive(Clone, Copy)]
pub enum Cause {
    Fits(usize),
    NotJudged(usize, usize),
    Refuted(usize, usize, Reason),
}

// How far the exchanges were followed: how many passed, where the next one starts, and what is known then, which is alive.
#[derive(Clone, Copy)]
pub struct Progress {
    pub passed: usize,
    pub at: usize,
    pub known: Knowledge,
}

// Follows the exchanges of a recording that is well-formed, so many at most, up to one that asks for a kept batch; or tells how many pass
// before one that leaves no record possible.
#[tactic(auto, using(crate::proofs::Loop::following, crate::proofs::Loop::spans_inside))]
fn follow(s: &[u8], link: Link, most: usize) -> Result<Progress, usize>
    requires { WellFormed s.now link.address link.access }
    ensures { Followed s.now link.address link.access most result }
{
    let mut known = knowledge::begin(link.address, link.access);
    let mut at = recording::HEADER;
    for passed in 0..most {
        let Ok(Some(spans)) = recording::exchange_at(s, at) else {
            return Ok(Progress { passed, at, known });
        };
        let exchange = Exchange {
            request: &s[spans.request..spans.stop],
            reply: &s[spans.reply..spans.end],
        };
        if hearing::asks_batch(link.address, exchange.request) {
            return Ok(Progress { passed, at, known });
        }
        known = hearing::learn(known, link, exchange, true);
        if !known.alive {
            return Err(passed);
        }
        at = spans.end;
    }
    Ok(Progress {
        passed: most,
        at,
        known,
    })
}

// Judges a recording: demand 3.
#[tactic(auto, using(crate::proofs::Theorem::right_so, crate::proofs::Loop::judging))]
pub fn judge(s: &[u8]) -> Result<Judgement, Refusal>
    ensures demand3 { Demand3 s.now (judgement_as result) }
    ensures result_value { judgement_as result ≡ judgement_of s.now }
{
    let Recorded {
        address,
        access,
        count,
    } = recording::read_recording(s)?;
    match follow(s, Link { address, access }, count) {
        Err(passed) => Ok(Judgement::Refuted(passed + 1, count)),
        Ok(end) if end.passed < count => Ok(Judgement::NotJudged(end.passed + 1, count)),
        Ok(_) => Ok(Judgement::Fits(count)),
    }
}

// What is known of the record after the first exchanges; more of them than there are count as all.
#[tactic(auto, using(crate::proofs::Theorem::telling, crate::proofs::Loop::knowing))]
pub fn known(s: &[u8], exchanges: usize) -> Result<Told, Refusal>
    ensures rightly_told { RightlyTold s.now exchanges (told_by (known_as result)) }
    ensures result_value { known_as result ≡ known_of s.now exchanges }
{
    let Recorded {
        address,
        access,
        count,
    } = recording::read_recording(s)?;
    let most = exchanges.min(count);
    match follow(s, Link { address, access }, most) {
        Err(passed) => Ok(Told::Refuted(passed + 1)),
        Ok(end) if end.passed < most => Ok(Told::NotJudged(end.passed + 1)),
        Ok(end) => Ok(Told::Sets(end.known.codes)),
    }
}

// Why the exchange behind those that passed refutes.
#[tactic(auto, using(crate::proofs::Loop::breaking, crate::proofs::Loop::spans_inside))]
fn cause_behind(s: &[u8], link: Link, count: usize, passed: usize) -> Cause
    requires { Breaks s.now link.address link.access count passed }
    ensures { caused_as (Ok result) ≡ why_of s.now }
{
    let Ok(before) = follow(s, link, passed) else {
        unreachable!()
    };
    let Ok(Some(spans)) = recording::exchange_at(s, before.at) else {
        unreachable!()
    };
    let exchange = Exchange {
        request: &s[spans.request..spans.stop],
        reply: &s[spans.reply..spans.end],
    };
    Cause::Refuted(
        passed + 1,
        count,
        reason::find(before.known, link, exchange),
    )
}

// Why a recording is refuted, or not judged to its end.
#[tactic(auto, using(crate::proofs::Theorem::reasoning, crate::proofs::Loop::explaining))]
pub fn why(s: &[u8]) -> Result<Cause, Refusal>
    ensures rightly_reasoned { RightlyReasoned s.now (reasoned_by (caused_as result)) }
    ensures result_value { caused_as result ≡ why_of s.now }
{
    let Recorded {
        address,
        access,
        count,
    } = recording::read_recording(s)?;
    let link = Link { address, access };
    match follow(s, link, count) {
        Err(passed) => Ok(cause_behind(s, link, count, passed)),
        Ok(end) if end.passed < count => Ok(Cause::NotJudged(end.passed + 1, count)),
        Ok(_) => Ok(Cause::Fits(count)),
    }
}
