// Totals as text: a sum in units, and a line for each recipe. They are written by text's writers, as the replies are: a Display would need
// a Write of its own over the lent buffer, and a failure that cannot come.
#![tactic(auto)]

ghost use Rattle.std.specs.Prelude.{◌≡◌, ◌+◌, ◌≤◌, leb, length, is_some};
ghost use Rattle.std.specs.Option.{unwrap_or};
ghost use Rattle.base.specs.Lists.{over_at};
ghost use Rattle.text.specs.Written.{written_first};
ghost use Rattle.sheet.specs.Sheet.{units_text, label_text, line_text, recipe_text, sheet_text, units_room, label_room, line_room, room};

use state::RECIPES;
use text::{put_decimal, put_digits, put_word};
use totalling::Totals;

// Room for any sum, and for any line.
pub const LINE_ROOM: usize = 64;

// Room for a line for each recipe.
pub const ROOM: usize = LINE_ROOM * RECIPES;

// Ten-thousandths in a unit.
const UNIT: u64 = 10000;

// Ten-thousandths as units with four decimals.
fn put_units(sum: u64, at: usize, out: &mut [u8]) -> usize
    requires { at + units_room ≤ length out.old }
    ensures { (result ≡ at + length (units_text sum)) × (out.new ≡ over_at at (units_text sum) out.old) }
{
    let point = put_decimal(sum / UNIT, at, out);
    let decimals = put_word(b".", point, out);
    put_digits(sum, 4, decimals, out)
}

// Writes a sum to the start of out, and gives its length; nothing if out is under LINE_ROOM bytes, and then nothing is written.
pub fn write_units(sum: u64, out: &mut [u8]) -> Option<usize>
    ensures written { (unwrap_or result 0, out.new) ≡ written_first line_room (units_text sum) out.old }
    ensures room { is_some result ≡ leb line_room (length out.old) }
{
    if out.len() < LINE_ROOM {
        return None;
    }
    Some(put_units(sum, 0, out))
}

// What the line of a recipe tells.
#[derive(Clone, Copy)]
struct Line {
    recipe: u64,
    count: u32,
    sum: u64,
}

impl Line {
    // What stands before the sum: the recipe and the number of its batches.
    fn put_label(self, at: usize, out: &mut [u8]) -> usize
        requires { at + label_room ≤ length out.old }
        ensures { (result ≡ at + length (label_text self.recipe self.count)) × (out.new ≡ over_at at (label_text self.recipe self.count) out.old) }
    {
        let space = put_digits(self.recipe, 2, at, out);
        let number = put_word(b" ", space, out);
        let gap = put_decimal(u64::from(self.count), number, out);
        put_word(b" ", gap, out)
    }

    // The whole line.
    fn put_line(self, at: usize, out: &mut [u8]) -> usize
        requires { at + line_room ≤ length out.old }
        ensures { (result ≡ at + length (line_text self.recipe self.count self.sum)) × (out.new ≡ over_at at (line_text self.recipe self.count self.sum) out.old) }
    {
        let units = self.put_label(at, out);
        let end = put_units(self.sum, units, out);
        put_word(b"\n", end, out)
    }

    // The line if the recipe occurs, and else nothing.
    fn put_recipe(self, at: usize, out: &mut [u8]) -> usize
        requires { at + line_room ≤ length out.old }
        ensures { (result ≡ at + length (recipe_text self.recipe self.count self.sum)) × (out.new ≡ over_at at (recipe_text self.recipe self.count self.sum) out.old) }
    {
        if self.count == 0 {
            return at;
        }
        self.put_line(at, out)
    }
}

// Writes a line for each recipe that occurs, rising, to the start of out, and gives their length; nothing if out is under ROOM bytes, and
// then nothing is written.
pub fn write(totals: Totals, out: &mut [u8]) -> Option<usize>
    ensures written { (unwrap_or result 0, out.new) ≡ written_first room (sheet_text totals.counts totals.sums) out.old }
    ensures room { is_some result ≡ leb room (length out.old) }
{
    if out.len() < ROOM {
        return None;
    }
    let mut at = 0;
    for i in 0..RECIPES {
        let line = Line {
            recipe: i as u64 + 1,
            count: totals.counts[i],
            sum: totals.sums[i],
        };
        at = line.put_recipe(at, out);
    }
    Some(at)
}
