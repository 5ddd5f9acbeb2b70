// The totals of a stored bank, and what is printed of them.
#![tactic(auto)]

ghost use Rattle.std.specs.Prelude.{◌≡◌, leb, length, is_some};
ghost use Rattle.std.specs.Option.{unwrap_or};
ghost use Rattle.text.specs.Written.{written_first};
ghost use Rattle.totalling.specs.Totals.{totals_as};
ghost use Rattle.sheet.specs.Sheet.{room};
ghost use Rattle.week.specs.Week.{bank_totals, week_of, week_as, answer_as, printed, write_of};

use bank::{Bank, MOST};
use storedbank::Refused;
use text::put_word;
use totalling::Totals;

// What reading answers, and the length of what is printed; nothing is printed if there is no room.
#[derive(Clone, Copy)]
pub struct Printed {
    pub answer: Result<(), Refused>,
    pub written: Option<usize>,
}

// The totals of the batches that a bank keeps, over their three lists. Beyond its room it keeps none.
pub fn bank_totals(bank: Bank) -> Result<Totals, totalling::Refusal>
    ensures { totals_as result ≡ bank_totals bank }
{
    let count = bank.count.min(MOST);
    let mut raws = [0; MOST];
    let mut factors = [0; MOST];
    let mut recipes = [0; MOST];
    for (i, batch) in bank.batches[..count].iter().enumerate() {
        raws[i] = batch.raw;
        factors[i] = batch.factor;
        recipes[i] = u32::from(batch.recipe);
    }
    totalling::add_up(&raws[..count], &factors[..count], &recipes[..count])
}

// Reads a stored bank and adds its batches up. Where sums and numbers have to stand beside a refusal, they are `totalling::NOTHING`.
pub fn add_up(stored: &[u8]) -> Result<Totals, Refused>
    ensures { week_as result ≡ week_of stored.now }
{
    let bank = storedbank::read(stored)?;
    // the batches of a bank that was read are in their ranges
    Ok(bank_totals(bank).unwrap())
}

// Writes what is printed for an answer to the start of out, and gives its length; nothing if out is under sheet::ROOM bytes, and then
// nothing is written.
fn print(added: Result<Totals, Refused>, out: &mut [u8]) -> Option<usize>
    ensures written { (unwrap_or result 0, out.new) ≡ written_first room (printed (week_as added)) out.old }
    ensures room { is_some result ≡ leb room (length out.old) }
{
    if out.len() < sheet::ROOM {
        return None;
    }
    match added {
        Ok(totals) => sheet::write(totals, out),
        Err(Refused) => Some(put_word(b"refused K7\n", 0, out)),
    }
}

// Reads a stored bank and writes what is printed of it to the start of out; nothing if out is under sheet::ROOM bytes.
pub fn write(stored: &[u8], out: &mut [u8]) -> Printed
    ensures written { (answer_as result.answer, (unwrap_or result.written 0, out.new)) ≡ write_of stored.now out.old }
    ensures room { is_some result.written ≡ leb room (length out.old) }
{
    let added = add_up(stored);
    Printed {
        answer: added.map(|_| ()),
        written: print(added, out),
    }
}
