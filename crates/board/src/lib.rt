// One board with up to sixteen records: a request goes to the record with its address.
#![tactic(auto)]

ghost use Rattle.std.specs.Prelude.{◌≡◌, not, ◌≤◌, eqb, ◌==◌, position};
ghost use Rattle.base.specs.Test.{all_distinct, member};
ghost use Rattle.board.specs.Board.{refusal_number, answer_silence, addresses, outcome_as, board_of};
ghost use Rattle.board.specs.Steps.{refused_of, checked_as, found_of, found_as};

use frame::{Kind, ROOM, Silence};
use state::Record;

// The most records that a board has.
pub const RECORDS: usize = 16;

// Why a list of records is refused; these come in place of S1.
#[derive(Clone, Copy, PartialEq, Eq)]
pub enum Refusal {
    // S9
    ListLength,
    // S10
    InvalidRecord,
    // S11
    AddressTwice,
}

// S9 to S11; or the controller's: S2 to S8, or the length of the reply frame.
pub type Answer = Result<controller::Answer, Refusal>;

// The n of Sn.
impl From<Refusal> for u8 {
    ghost from_gives = { λ refusal n. (n ≡ refusal_number refusal) × (n ≤ 11) };

    fn from(refusal: Refusal) -> u8 {
        match refusal {
            Refusal::ListLength => 9,
            Refusal::InvalidRecord => 10,
            Refusal::AddressTwice => 11,
        }
    }
}

// There is no reply.
pub fn is_silent(answer: Answer) -> bool
    ensures { result ≡ not (eqb (answer_silence answer) 0) }
{
    match answer {
        Ok(called) => called.is_err(),
        Err(_) => true,
    }
}

// A record has this address.
fn has(address: u8, records: &[Record]) -> bool
    ensures { result ≡ member address (addresses records.now) }
{
    records.iter().any(|record| address == record.address)
}

// No address stands twice.
fn distinct(records: &[Record]) -> bool
    ensures { result ≡ all_distinct (addresses records.now) }
{
    for (i, record) in records.iter().enumerate() {
        if has(record.address, &records[i + 1..]) {
            return false;
        }
    }
    true
}

// S9 to S11.
#[tactic(auto, unfolding(crate::specs::Steps::refused_of))]
fn check(records: &[Record]) -> Result<(), Refusal>
    ensures { checked_as result ≡ refused_of records.now }
{
    if !(1..=RECORDS).contains(&records.len()) {
        return Err(Refusal::ListLength);
    }
    if !records.iter().all(|record| record.valid()) {
        return Err(Refusal::InvalidRecord);
    }
    if !distinct(records) {
        return Err(Refusal::AddressTwice);
    }
    Ok(())
}

// The place of the first record with this address.
pub fn place_of(address: u8, records: &[Record]) -> Option<usize>
    ensures { result ≡ position (λ r. r.address == address) records.now }
{
    records.iter().position(|record| record.address == address)
}

// The place of the record that a request goes to.
#[tactic(auto, unfolding(crate::specs::Steps::found_of))]
fn find(kind: Kind, records: &[Record], request: &[u8], room: usize) -> Result<usize, Silence>
    ensures { found_as result ≡ found_of kind records.now request.now room }
{
    if room < ROOM {
        return Err(Silence::ShortReplyBuffer);
    }
    let asked = frame::address(kind, request)?;
    place_of(asked.unit, records).ok_or(Silence::OtherAddress)
}

// One frame that fills the lent request, and one reply buffer. The record with the request's address is called and stored back, and
// every other one stays. A refusal or silence leaves the records and the buffer as they were.
pub fn call(kind: Kind, records: &mut [Record], request: &[u8], out: &mut [u8]) -> Answer
    ensures { outcome_as result records.new out.new ≡ board_of kind records.old request.now out.old }
{
    check(records)?;
    match find(kind, records, request, out.len()) {
        Ok(at) => {
            let called = controller::call(kind, records[at], request, out);
            records[at] = called.after;
            Ok(called.answer)
        }
        Err(why) => Ok(Err(why)),
    }
}
