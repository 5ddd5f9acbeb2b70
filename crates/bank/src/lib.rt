// The finished batches that are kept, oldest first.
#![tactic(auto)]

ghost use Rattle.std.specs.Prelude.{◌≡◌};
ghost use Rattle.bank.specs.Bank.{batch_valid, batch_of, valid, keep_of, no_batch, newest_of, empty_bank};

use state::{
    FACTOR_RANGE, NUMBER_RANGE, PRESET_RANGE, ParameterKind, RAW_RANGE, RECIPE_RANGE, Record,
    recipe_place, within,
};

// How many batches a bank has room for.
pub const MOST: usize = 100;

#[derive(Clone, Copy)]
pub struct Batch {
    pub number: u16,
    pub recipe: u8,
    pub factor: u32,
    pub raw: u32,
    pub preset: u32,
}

// What free room holds.
const NO_BATCH: Batch = Batch {
    number: 0,
    recipe: 0,
    factor: 0,
    raw: 0,
    preset: 0,
};

// The first `count` are kept; the others are free room. A count beside an array: there is no heap, and `keep` and `newest` promise what
// becomes of a bank that counts too many, too.
#[derive(Clone, Copy)]
pub struct Bank {
    pub count: usize,
    pub batches: [Batch; MOST],
}

impl Batch {
    // Each field lies in its own range.
    #[tactic(auto, unfolding(crate::specs::Bank::batch_valid, crate::specs::Bank::all_within))]
    pub fn valid(self) -> bool
        ensures { result ≡ batch_valid self }
    {
        within(NUMBER_RANGE, u32::from(self.number))
            && within(RECIPE_RANGE, u32::from(self.recipe))
            && within(FACTOR_RANGE, self.factor)
            && within(RAW_RANGE, self.raw)
            && within(PRESET_RANGE, self.preset)
    }
}

impl Bank {
    // At most 100 batches, each of whose fields lies in its range.
    #[tactic(auto, unfolding(crate::specs::Bank::valid))]
    pub fn valid(self) -> bool
        ensures { result ≡ valid self }
    {
        let count = self.count;
        if MOST < count {
            return false;
        }
        self.batches[..count].iter().all(|batch| batch.valid())
    }

    // Stores one more; the oldest gives its room to it if there is no other.
    #[tactic(auto, using(crate::proofs::Shift::keep_full), unfolding(crate::specs::Bank::keep_of))]
    pub fn keep(mut self, batch: Batch) -> Bank
        ensures { result ≡ keep_of batch self }
    {
        let count = self.count;
        if count < MOST {
            self.batches[count] = batch;
            self.count = count + 1;
            return self;
        }
        self.batches.copy_within(1.., 0);
        self.batches[MOST - 1] = batch;
        self
    }

    // The batch with this number, 1 the newest, if it is kept.
    #[tactic(auto, unfolding(crate::specs::Bank::newest_of))]
    pub fn newest(self, n: u32) -> Option<Batch>
        ensures { result ≡ newest_of n self }
    {
        let asked = n as usize;
        let count = self.count;
        if asked == 0 || count < asked {
            return None;
        }
        let at = count - asked;
        if at < MOST {
            return Some(self.batches[at]);
        }
        // of a bank that counts more than it has room for
        Some(NO_BATCH)
    }
}

// The batch that a record holds.
#[tactic(auto, unfolding(crate::specs::Bank::batch_of))]
pub fn batch_of(r: Record) -> Batch
    ensures { result ≡ batch_of r }
{
    Batch {
        number: r.number,
        recipe: r.recipe,
        factor: r.value_at(recipe_place(u16::from(r.recipe), ParameterKind::Factor)),
        raw: r.raw,
        preset: r.preset,
    }
}

pub fn empty() -> Bank
    ensures { result ≡ empty_bank }
{
    Bank {
        count: 0,
        batches: [NO_BATCH; MOST],
    }
}
