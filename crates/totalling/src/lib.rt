// Week totals: for each recipe the exact sum of raw times factor, and the number of batches.
#![tactic(auto)]

ghost use Rattle.std.specs.Prelude.{◌≡◌, ◌≤◌, length};
ghost use Rattle.totalling.specs.Totals.{entry, amount, most, in_range, refusal_number, totals_as, totals_of, laid_in};

use state::{FACTOR_RANGE, RAW_RANGE, RECIPE_RANGE, RECIPES, within};

// More batches than this are refused.
pub const MOST: usize = 1000;

// Why lists are refused.
#[derive(Clone, Copy, PartialEq, Eq)]
pub enum Refusal {
    // W1
    UnequalLengths,
    // W2
    TooMany,
    // W3
    OutOfRange,
}

// n of Wn.
impl From<Refusal> for u8 {
    ghost from_gives = { λ refusal n. (n ≡ refusal_number refusal) × (n ≤ 3) };

    fn from(refusal: Refusal) -> u8 {
        match refusal {
            Refusal::UnequalLengths => 1,
            Refusal::TooMany => 2,
            Refusal::OutOfRange => 3,
        }
    }
}

// Recipe 1 comes first. The sums are in ten-thousandths of a unit. Two lists, since `lay` hands C two buffers.
#[derive(Clone, Copy, PartialEq, Eq)]
pub struct Totals {
    pub sums: [u64; RECIPES],
    pub counts: [u32; RECIPES],
}

// Those of no batch; they are shown beside a refusal too.
pub const NOTHING: Totals = Totals {
    sums: [0; RECIPES],
    counts: [0; RECIPES],
};

// Raw volume, factor and recipe of a batch are in their ranges.
#[tactic(auto, unfolding(crate::specs::Totals::in_range))]
fn in_range(raw: u32, factor: u32, recipe: u32) -> bool
    ensures { result ≡ in_range (entry raw factor recipe) }
{
    within(RECIPE_RANGE, recipe) && within(FACTOR_RANGE, factor) && within(RAW_RANGE, raw)
}

// What a batch adds to the sum of its recipe.
#[tactic(auto, using(crate::proofs::Entries::product_fits))]
fn amount(raw: u32, factor: u32) -> u64
    ensures { result ≡ amount (entry raw factor 0) }
{
    u64::from(raw) * u64::from(factor)
}

// Adds up batches whose lists are of equal length and not too long.
fn add_batches(raws: &[u32], factors: &[u32], recipes: &[u32]) -> Result<Totals, Refusal>
    requires { (length raws.now ≡ length factors.now) × ((length raws.now ≡ length recipes.now) × (length raws.now ≤ most)) }
    ensures { totals_as result ≡ totals_of raws.now factors.now recipes.now }
{
    let mut totals = NOTHING;
    for ((&raw, &factor), &recipe) in raws.iter().zip(factors).zip(recipes) {
        if !in_range(raw, factor, recipe) {
            return Err(Refusal::OutOfRange);
        }
        let place = recipe as usize - 1;
        totals.sums[place] += amount(raw, factor);
        totals.counts[place] += 1;
    }
    Ok(totals)
}

// Adds up the batches of three lists, as C lends them: at one place of each stand a batch's raw volume, factor and recipe.
#[tactic(auto, using(crate::proofs::Adding::refusing))]
pub fn add_up(raws: &[u32], factors: &[u32], recipes: &[u32]) -> Result<Totals, Refusal>
    ensures { totals_as result ≡ totals_of raws.now factors.now recipes.now }
{
    if raws.len() != factors.len() || raws.len() != recipes.len() {
        return Err(Refusal::UnequalLengths);
    }
    if MOST < raws.len() {
        return Err(Refusal::TooMany);
    }
    add_batches(raws, factors, recipes)
}

// Lays sums and numbers of batches at the start of two buffers, if both have room for all; else it answers false and writes nothing.
#[tactic(auto, unfolding(crate::specs::Totals::laid_in, base::specs::Lists::over))]
pub fn lay(totals: Totals, sums: &mut [u64], counts: &mut [u32]) -> bool
    ensures { (result, (sums.new, counts.new)) ≡ laid_in totals.sums totals.counts sums.old counts.old }
{
    if sums.len() < RECIPES || counts.len() < RECIPES {
        return false;
    }
    sums[..RECIPES].copy_from_slice(&totals.sums);
    counts[..RECIPES].copy_from_slice(&totals.counts);
    true
}
