// Why an exchange refutes a recording, by what is known of the record before it.
#![tactic(auto)]

ghost use Rattle.std.specs.Prelude.{◌≡◌, ◌≤◌};
ghost use Rattle.state.specs.Field.{field_count};
ghost use Rattle.hearing.specs.Hearing.{lent};
ghost use Rattle.reason.specs.Reason.{alone, first_alone, reply_reason, reason_of};

use hearing::{Exchange, Link, Said};
use knowledge::{FIELDS, Knowledge};

#[derive(Clone, Copy)]
pub enum Reason {
    // A reply where silence Sn was due: the number, as in Said.
    Answered(u8),
    // Silence where a reply was due.
    Unanswered,
    // A reply that no record gives, whatever its fields.
    Impossible,
    // The field at this position: the code of its set before the exchange, and of what the reply needs.
    Field(u32, u32, u32),
}

// What the reply leaves where nothing is known but the set at one position.
#[tactic(auto, using(crate::proofs::Steps::left_of))]
fn left_alone(known: Knowledge, link: Link, exchange: Exchange, at: usize) -> Knowledge
    ensures { result ≡ alone link.address link.access (lent exchange.entry) known at }
{
    let one = knowledge::begin(link.address, link.access).put(at, known.code(at));
    hearing::learn(one, link, exchange, false)
}

// The first position whose set alone leaves nothing.
#[tactic(auto, using(crate::proofs::Steps::searching))]
fn first_alone(known: Knowledge, link: Link, exchange: Exchange) -> usize
    ensures { (result ≡ first_alone link.address link.access (lent exchange.entry) known) × (result ≤ field_count) }
{
    for at in 0..FIELDS {
        if !left_alone(known, link, exchange, at).alive {
            return at;
        }
    }
    FIELDS
}

// A request and a reply that can be read.
#[tactic(auto, using(crate::proofs::Steps::replying))]
fn by_reply(known: Knowledge, link: Link, exchange: Exchange) -> Reason
    ensures { result ≡ reply_reason link.address link.access (lent exchange.entry) known }
{
    let nothing = knowledge::begin(link.address, link.access);
    let needed = hearing::learn(nothing, link, exchange, false);
    if !needed.alive {
        return Reason::Impossible;
    }
    let at = first_alone(known, link, exchange);
    Reason::Field(at as u32, known.code(at), needed.code(at))
}

// Why an exchange refutes, with what is known before it. The three go on as they are: hearing takes the last two, and the first alone tells
// the sets.
#[tactic(auto, using(crate::proofs::Steps::finding))]
pub fn find(known: Knowledge, link: Link, exchange: Exchange) -> Reason
    ensures { result ≡ reason_of link.address link.access known (lent exchange.entry) }
{
    match hearing::hear(link.address, exchange) {
        Said::Answered(n) => Reason::Answered(n),
        Said::Unanswered => Reason::Unanswered,
        // Silence that was kept refutes nothing.
        Said::Unreadable | Said::Quiet => Reason::Impossible,
        Said::Texts(..) => by_reply(known, link, exchange),
    }
}
