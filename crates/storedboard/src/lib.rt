// A board whose records are lent end to end in their stored form.
#![tactic(auto)]

ghost use Rattle.std.specs.Prelude.{◌≡◌, ◌*◌, ◌≤◌, length};
ghost use Rattle.frame.specs.Answer.{address_of};
ghost use Rattle.board.specs.Board.{board_of};
ghost use Rattle.storedboard.specs.StoredBoard.{each, forms_in, records_in, first_refused, called_as, left_as, stored_board_of};
ghost use Rattle.storedboard.specs.Steps.{read_as, target, saved, lent_of};

use board::RECORDS;
use frame::Kind;
use state::Record;
use stored::{Refusal, STORED_LENGTH};

// K1 for the length of the whole, or that of the first record that is refused; or the board's: S9, S11, S2 to S8, or the length of the
// reply frame.
pub type Answer = Result<board::Answer, Refusal>;

// Reads the records, up to the first that is refused.
fn read_records(stored: &[u8], records: &mut [Record]) -> Result<(), Refusal>
    requires { length records.old * each ≤ length stored.now }
    ensures { (read_as result ≡ first_refused (forms_in (length records.old) stored.now)) × (read_as result ≡ 0 → records.new ≡ records_in (forms_in (length records.old) stored.now)) }
{
    for (i, record) in records.iter_mut().enumerate() {
        let at = i * STORED_LENGTH;
        let end = at + STORED_LENGTH;
        *record = stored::read(&stored[at..end])?;
    }
    Ok(())
}

// The address that a request names.
#[tactic(auto, unfolding(crate::specs::Steps::target))]
fn target_of(kind: Kind, request: &[u8]) -> Option<u8>
    ensures { result ≡ target (address_of kind request.now) }
{
    let Ok(asked) = frame::address(kind, request) else {
        return None;
    };
    Some(asked.unit)
}

// Writes the record with that address back in its place; no other record's bytes are touched.
fn save(records: &[Record], address: u8, stored: &mut [u8])
    requires { length records.now ≤ 16 }
    ensures { stored.new ≡ saved address records.now stored.old }
{
    let Some(i) = board::place_of(address, records) else {
        return;
    };
    let at = i * STORED_LENGTH;
    let end = at + STORED_LENGTH;
    if end <= stored.len() {
        let _ = stored::write(records[i], &mut stored[at..end]);
    }
}

// The board's call on the records, of which the one with the request's address is written back if there is a reply.
fn lend(
    kind: Kind,
    records: &mut [Record],
    stored: &mut [u8],
    request: &[u8],
    out: &mut [u8],
) -> board::Answer
    requires { length records.old ≤ 16 }
    ensures { called_as result stored.new out.new ≡ lent_of (target (address_of kind request.now)) (board_of kind records.old request.now out.old) stored.old }
{
    let answer = board::call(kind, records, request, out);
    if board::is_silent(answer) {
        return answer;
    }
    if let Some(address) = target_of(kind, request) {
        save(records, address, stored);
    }
    answer
}

// One call of the board: the record with the request's address is called and written back in its place. A refusal or silence
// leaves every byte as it was.
pub fn call(kind: Kind, stored: &mut [u8], request: &[u8], out: &mut [u8]) -> Answer
    ensures { left_as result stored.new out.new ≡ stored_board_of kind stored.old request.now out.old }
{
    if stored.len() % STORED_LENGTH != 0 {
        return Err(Refusal::Length);
    }
    let n = stored.len() / STORED_LENGTH;
    if !(1..=RECORDS).contains(&n) {
        return Ok(Err(board::Refusal::ListLength));
    }
    let mut records = [stored::low_record(); RECORDS];
    let records = &mut records[..n];
    read_records(stored, records)?;
    Ok(lend(kind, records, stored, request, out))
}
