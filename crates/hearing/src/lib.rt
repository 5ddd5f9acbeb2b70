// One exchange: what it says before any record is looked at, and what it teaches of the record.
#![tactic(auto)]

ghost use Rattle.std.specs.Prelude.{◌≡◌};
ghost use Rattle.frame.specs.Numbers.{silence_number};
ghost use Rattle.frame.specs.declared.Kind.TheVariants.{Minicomputer};
ghost use Rattle.banked.specs.Banked.{asks_heard};
ghost use Rattle.hearing.specs.Hearing.{lent, silence_said, reply_said, said_of, exchange_taught};

use frame::{Kind, ROOM, Silence};
use knowledge::Knowledge;
use text::is_word;

// The link to a unit: its address, and its access.
#[derive(Clone, Copy)]
pub struct Link {
    pub address: u8,
    pub access: u8,
}

// A request, and the bytes that came back.
#[derive(Clone, Copy)]
pub struct Exchange<'a> {
    pub request: &'a [u8],
    pub reply: &'a [u8],
}

// What an exchange says. No Option or Result: each of the five answers is used in a way of its own.
#[derive(Clone, Copy)]
pub enum Said {
    // Silence was due, and kept.
    Quiet,
    // A reply where silence Sn was due: the number and no Silence, since the definitions said_to and known.answered tell n.
    Answered(u8),
    // Silence where a reply was due.
    Unanswered,
    // A reply that is no frame, or another unit's.
    Unreadable,
    // The lengths of the request's text and of the reply's. Either starts at the second byte, and the reply's with the address.
    Texts(usize, usize),
}

// This silence was due.
#[tactic(auto, using(crate::proofs::Steps::keeping))]
fn silent(why: Silence, reply: &[u8]) -> Said
    ensures { result ≡ silence_said (silence_number why) reply.now }
{
    if reply.is_empty() {
        return Said::Quiet;
    }
    let number = u8::from(why);
    Said::Answered(number)
}

// A reply was due, to a request whose text has n bytes.
fn replied(address: u8, n: usize, reply: &[u8]) -> Said
    ensures { result ≡ reply_said address n reply.now }
{
    if reply.is_empty() {
        return Said::Unanswered;
    }
    let Ok(m) = frame::locate(Kind::Minicomputer, reply) else {
        return Said::Unreadable;
    };
    let digits = [0x30 + address / 10 % 10, 0x30 + address % 10];
    if !is_word(&reply[1..3], &digits) {
        return Said::Unreadable;
    }
    Said::Texts(n, m)
}

// What an exchange with the unit of an address says.
#[tactic(auto, unfolding(crate::specs::Hearing::said_of))]
pub fn hear(address: u8, exchange: Exchange) -> Said
    ensures { result ≡ said_of address (lent exchange.entry) }
{
    match frame::address(Kind::Minicomputer, exchange.request) {
        Err(why) => silent(why, exchange.reply),
        Ok(addressed) if addressed.unit != address => silent(Silence::OtherAddress, exchange.reply),
        Ok(addressed) => replied(address, addressed.length, exchange.reply),
    }
}

// Bytes of a frame that asks for a kept batch: STX, `01RT R 001`, ETX, check and PAD.
const BATCH_FRAME: usize = 14;

const BATCH_TEXT_END: usize = 11;

// Whether a request asks the unit with this address for a kept batch, and is not silent. Most are told by their length.
#[tactic(auto, using(crate::proofs::Asking::asking_batch))]
pub fn asks_batch(address: u8, request: &[u8]) -> bool
    ensures { result ≡ asks_heard Minicomputer address request.now }
{
    if request.len() != BATCH_FRAME {
        return false;
    }
    if command::batch_asked(&request[1..BATCH_TEXT_END]).is_none() {
        return false;
    }
    controller::hear(Kind::Minicomputer, true, address, request, ROOM).is_ok()
}

// What an exchange teaches to one who knows the unit's address and its link's access: of the record as the request leaves it, or as it
// was when the reply came.
#[tactic(auto, using(crate::proofs::Steps::texts_inside), unfolding(crate::specs::Hearing::exchange_taught))]
pub fn learn(k: Knowledge, link: Link, exchange: Exchange, after: bool) -> Knowledge
    ensures { result ≡ exchange_taught after link.address link.access k (lent exchange.entry) }
{
    match hear(link.address, exchange) {
        Said::Quiet => k,
        Said::Answered(_) | Said::Unanswered | Said::Unreadable => k.refuted(),
        Said::Texts(n, m) => {
            let request = command::parse(&exchange.request[1..n + 1]);
            learning::learn(k, link.access, request, &exchange.reply[3..m + 1], after)
        }
    }
}
