// One call of the controller with a bank of finished batches beside its record.
#![tactic(auto)]

ghost use Rattle.std.specs.Prelude.{◌≡◌};
ghost use Rattle.banked.specs.Banked.{valid as banked_valid, address_of, reply_text as banked_reply_text, held_after as banked_after, reply_of, banked_of};
ghost use Rattle.banked.specs.Steps.{answer_for, stored_between, changed_as, banked_laws};

use bank::{Bank, batch_of};
use command::{Served, Writing};
use controller::{Answer, Held};
use frame::{Kind, ROOM, Silence};
use reply::Kept;
use state::{Phase, Record};

// The record, and the bank beside it.
#[derive(Clone, Copy)]
pub struct Banked {
    pub state: Record,
    pub bank: Bank,
}

impl Banked {
    // Both are valid.
    #[tactic(auto, unfolding(crate::specs::Banked::valid))]
    pub fn valid(self) -> bool
        ensures { result ≡ banked_valid self }
    {
        self.state.valid() && self.bank.valid()
    }
}

// What is answered to the request for a kept batch.
#[tactic(auto, unfolding(crate::specs::Steps::answer_for))]
fn answer_for(bank: Bank, n: u32) -> Option<Kept>
    ensures { result ≡ answer_for n bank }
{
    let batch = bank.newest(n)?;
    Some(Kept {
        raw: batch.raw,
        number: n,
    })
}

// Whether a request that left the record so stored a batch. Of all requests ET alone leads from Stopped or Done to Idle.
#[tactic(auto, unfolding(crate::specs::Steps::stored_between))]
pub fn stores(before: Record, after: Record) -> bool
    ensures { result ≡ stored_between before after }
{
    let ended = matches!(before.phase, Phase::Stopped | Phase::Done);
    ended && after.phase == Phase::Idle
}

impl Held for Banked {
    ghost valid = { banked_valid };

    ghost address = { address_of };

    ghost reply_text = { banked_reply_text };

    ghost held_after = { banked_after };

    ghost changed = { changed_as };

    ghost replied = { reply_of };

    ghost called = { banked_of };

    ghost laws = { banked_laws };

    fn is_valid(&self) -> bool {
        self.valid()
    }

    fn address(&self) -> u8 {
        self.state.address
    }

    // The text is read once: for a kept batch here, for all else by the record.
    #[tactic(auto, using(crate::proofs::Steps::reply_short))]
    fn reply_to(&self, kind: Kind, text: &[u8], out: &mut [u8]) -> Served<Answer> {
        if out.len() < ROOM {
            return Served {
                answer: Err(Silence::ShortReplyBuffer),
                effect: None,
            };
        }
        let Some(number) = command::batch_asked(text) else {
            return self.state.reply_to(kind, text, out);
        };
        let kept = answer_for(self.bank, number);
        let n = reply::write_kept(self.state.address, kept, &mut out[1..]);
        let length = frame::enclose(kind, n, out).unwrap_or(0);
        Served {
            answer: Ok(length),
            effect: None,
        }
    }

    #[tactic(auto, unfolding(crate::specs::Steps::bank_after))]
    fn carry_out(&mut self, writing: Writing) {
        let before = self.state;
        self.state.carry_out(writing);
        if stores(before, self.state) {
            self.bank = self.bank.keep(batch_of(before));
        }
    }
}
