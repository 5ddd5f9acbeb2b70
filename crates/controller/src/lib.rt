// One call of the controller: a request frame in, a reply frame or a named silence out.
#![tactic(auto)]

ghost use Rattle.std.specs.Prelude.{◌≡◌, ℕ, Bool, Option, List, length};
ghost use Rattle.state.specs.Valid.{valid as record_valid};
ghost use Rattle.frame.specs.declared.Kind.{Kind};
ghost use Rattle.command.specs.declared.Writing.{Writing};
ghost use Rattle.command.specs.Answer.{reply_text as record_reply_text, record_after};
ghost use Rattle.command.specs.Request.{effect_as};
ghost use Rattle.controller.specs.Call.{OutcomeOf, HeldLaws, outcome_as, address_of, reply_of, call_of, record_laws, hearing_of, heard_as};

use command::{Served, Writing};
use frame::{Addressed, Kind, ROOM, Silence};
use state::Record;

// The length of the reply frame, or S1 to S8.
pub type Answer = Result<usize, Silence>;

// An answer, and what is held afterwards.
#[derive(Clone, Copy)]
pub struct Called<A, H> {
    pub answer: A,
    pub after: H,
}

// What a unit holds: a record, alone or with a bank of finished batches beside it.
pub trait Held: Copy {
    ghost valid: { Self → Bool };

    // Of the unit.
    ghost address: { Self → ℕ };

    // The text of the reply to a text, and what is held then.
    ghost reply_text: { List ℕ → Self → List ℕ };

    ghost held_after: { List ℕ → Self → Self };

    // What an effect leaves.
    ghost changed: { Option Writing → Self → Self };

    // What the reply to a text leaves, and what a whole call does.
    ghost replied: { Kind → Self → List ℕ → List ℕ → OutcomeOf Self };

    ghost called: { Kind → Self → List ℕ → List ℕ → OutcomeOf Self };

    // All of it is valid.
    fn is_valid(&self) -> bool
        ensures { result ≡ valid self.now };

    // The unit's address.
    fn address(&self) -> u8
        ensures { result ≡ address self.now };

    // Lays the reply to a text as to one that is for this unit, and tells the effect that is still to be carried out; or S2. This is what
    // is left of a call once what is held is found to be valid and the frame is read; an entry that takes frames otherwise than one by one
    // tests these itself.
    fn reply_to(&self, kind: Kind, text: &[u8], out: &mut [u8]) -> Served<Answer>
        ensures { outcome_as result.answer (changed result.effect self.now) out.new ≡ replied kind self.now text.now out.old };

    // Takes a write that was accepted.
    fn carry_out(&mut self, writing: Writing)
        ensures { self.new ≡ changed (Some writing) self.old };

    ghost laws: { HeldLaws valid address reply_text held_after changed replied called };
}

impl Held for Record {
    ghost valid = { record_valid };

    ghost address = { address_of };

    ghost reply_text = { record_reply_text };

    ghost held_after = { record_after };

    ghost changed = { effect_as };

    ghost replied = { reply_of };

    ghost called = { call_of };

    ghost laws = { record_laws };

    fn is_valid(&self) -> bool {
        self.valid()
    }

    fn address(&self) -> u8 {
        self.address
    }

    #[tactic(auto, using(crate::proofs::Steps::reply_short))]
    fn reply_to(&self, kind: Kind, text: &[u8], out: &mut [u8]) -> Served<Answer> {
        if out.len() < ROOM {
            return Served {
                answer: Err(Silence::ShortReplyBuffer),
                effect: None,
            };
        }
        let served = command::serve(*self, command::parse(text));
        let n = reply::write(*self, served, &mut out[1..]);
        let length = frame::enclose(kind, n, out).unwrap_or(0);
        Served {
            answer: Ok(length),
            effect: command::effect_of(served),
        }
    }

    fn carry_out(&mut self, writing: Writing) {
        command::take(self, writing);
    }
}

// Hears a frame for the unit with this address, and gives the length of its text, which starts at the second byte: every entry that takes
// one frame does so here. `good` if all that the unit holds is valid; so much reply room is lent.
#[tactic(auto, using(crate::proofs::Hearing::hearing_form, crate::proofs::Hearing::text_size))]
pub fn hear(
    kind: Kind,
    good: bool,
    address: u8,
    request: &[u8],
    room: usize,
) -> Result<usize, Silence>
    ensures { heard_as result ≡ hearing_of kind good address request.now room }
{
    if !good {
        return Err(Silence::InvalidRecord);
    }
    if room < ROOM {
        return Err(Silence::ShortReplyBuffer);
    }
    let Addressed { unit, length } = frame::address(kind, request)?;
    if unit != address {
        return Err(Silence::OtherAddress);
    }
    Ok(length)
}

// One frame that fills the lent request, and one reply buffer. A silence leaves what is held and the buffer as they were.
#[tactic(auto, using(crate::proofs::Hearing::text_within))]
pub fn call<H: Held>(kind: Kind, mut held: H, request: &[u8], out: &mut [u8]) -> Called<Answer, H>
    ensures { outcome_as result.answer result.after out.new ≡ H.called kind held request.now out.old }
{
    match hear(kind, held.is_valid(), held.address(), request, out.len()) {
        Err(silence) => Called {
            answer: Err(silence),
            after: held,
        },
        Ok(length) => {
            let end = length + 1;
            let replied = held.reply_to(kind, &request[1..end], out);
            if let Some(writing) = replied.effect {
                held.carry_out(writing);
            }
            Called {
                answer: replied.answer,
                after: held,
            }
        }
    }
}
