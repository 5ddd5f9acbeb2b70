// The stored form of a bank.
#![tactic(auto)]

ghost use Rattle.std.specs.Prelude.{◌≡◌, ◌+◌, ◌≤◌, length, take, drop};
ghost use Rattle.base.specs.Lists.{over_at};
ghost use Rattle.stored.specs.Form.{number_of};
ghost use Rattle.bank.specs.Bank.{most, batches_in};
ghost use Rattle.storedbank.specs.StoredBank.{written_as, reading_as, batch_width, header_width, bank_length, batch_bytes, all_bytes, header_bytes, write_of, read_of, open_of};
ghost use Rattle.storedbank.specs.Steps.{header_of, batch_found, body_of};

use bank::{Bank, Batch, MOST};

const VERSION: u8 = 1;

// Version and total length.
const HEADER: usize = 3;

// Number, recipe, factor, raw and preset.
const BATCH: usize = 2 + 1 + 2 + 4 + 3;

// Bytes of a full bank.
pub const ROOM: usize = HEADER + BATCH * MOST;

// Why a bank is not written.
#[derive(Clone, Copy, PartialEq, Eq)]
pub enum WriteRefusal {
    // K5
    InvalidBank,
    // K6
    ShortBuffer,
}

// K7: the bytes are no stored bank.
#[derive(Clone, Copy, PartialEq, Eq)]
pub struct Refused;

// ---- writing

// Stores version and length.
#[tactic(auto, unfolding(crate::specs::StoredBank::header_bytes, stored::specs::Form::big_endian, base::specs::Lists::over_at))]
fn put_header(count: usize, out: &mut [u8])
    requires { (count ≤ most) × (header_width ≤ length out.old) }
    ensures { out.new ≡ over_at 0 (header_bytes count) out.old }
{
    let [high, low] = ((HEADER + BATCH * count) as u16).to_be_bytes();
    out[..HEADER].copy_from_slice(&[VERSION, high, low]);
}

// Stores a batch at a place of the whole buffer, of which the promise speaks.
fn put_batch(batch: Batch, at: usize, out: &mut [u8])
    requires { at + batch_width ≤ length out.old }
    ensures { out.new ≡ over_at at (batch_bytes batch) out.old }
{
    let number = batch.number.to_be_bytes();
    let factor = batch.factor.to_be_bytes();
    let raw = batch.raw.to_be_bytes();
    let preset = batch.preset.to_be_bytes();
    out[at..at + BATCH].copy_from_slice(&[
        number[0],
        number[1],
        batch.recipe,
        factor[2],
        factor[3],
        raw[0],
        raw[1],
        raw[2],
        raw[3],
        preset[1],
        preset[2],
        preset[3],
    ]);
}

// Stores the batches behind the header, the oldest first.
fn put_batches(bank: Bank, out: &mut [u8])
    requires { (bank.count ≤ most) × (bank_length bank.count ≤ length out.old) }
    ensures { out.new ≡ over_at header_width (all_bytes (batches_in bank)) out.old }
{
    for i in 0..bank.count {
        put_batch(bank.batches[i], HEADER + BATCH * i, out);
    }
}

// Writes the stored form to the start of out. A refusal leaves out as it was.
#[tactic(auto, using(crate::proofs::Writing::writing))]
pub fn write(bank: Bank, out: &mut [u8]) -> Result<(), WriteRefusal>
    ensures { (written_as result, out.new) ≡ write_of bank out.old }
{
    if !bank.valid() {
        return Err(WriteRefusal::InvalidBank);
    }
    let count = bank.count;
    if out.len() < HEADER + BATCH * count {
        return Err(WriteRefusal::ShortBuffer);
    }
    put_header(count, out);
    put_batches(bank, out);
    Ok(())
}

// ---- reading

// The total length that a header tells.
#[tactic(auto, using(crate::proofs::Taking::two))]
fn length_field(s: &[u8]) -> usize
    requires { header_width ≤ length s.now }
    ensures { result ≡ number_of (take 2 (drop 1 s.now)) }
{
    usize::from(u16::from_be_bytes([s[1], s[2]]))
}

// Reads version and length, and gives the number of batches.
#[tactic(auto, unfolding(crate::specs::Steps::header_of))]
fn read_header(s: &[u8]) -> Option<usize>
    ensures { result ≡ header_of s.now }
{
    if s.len() < HEADER || s[0] != VERSION || length_field(s) != s.len() {
        return None;
    }
    let body = s.len() - HEADER;
    if body % BATCH != 0 || MOST < body / BATCH {
        return None;
    }
    Some(body / BATCH)
}

// Reads the batch at a place, whose fields must lie in their ranges.
fn read_batch(s: &[u8], at: usize) -> Option<Batch>
    requires { at + batch_width ≤ length s.now }
    ensures { result ≡ batch_found at s.now }
{
    let s = &s[at..at + BATCH];
    let batch = Batch {
        number: u16::from_be_bytes([s[0], s[1]]),
        recipe: s[2],
        factor: u32::from_be_bytes([0, 0, s[3], s[4]]),
        raw: u32::from_be_bytes([s[5], s[6], s[7], s[8]]),
        preset: u32::from_be_bytes([0, s[9], s[10], s[11]]),
    };
    if !batch.valid() {
        return None;
    }
    Some(batch)
}

// Reads so many batches behind the header.
fn read_batches(s: &[u8], count: usize) -> Result<Bank, Refused>
    requires { (count ≤ most) × (bank_length count ≤ length s.now) }
    ensures { reading_as result ≡ body_of count s.now }
{
    let mut bank = bank::empty();
    for i in 0..count {
        let Some(batch) = read_batch(s, HEADER + BATCH * i) else {
            return Err(Refused);
        };
        bank.batches[i] = batch;
    }
    bank.count = count;
    Ok(bank)
}

// Reads a stored bank. Where a bank has to stand beside a refusal, it is `bank::empty()`.
#[tactic(auto, using(crate::proofs::Taking::reading))]
pub fn read(s: &[u8]) -> Result<Bank, Refused>
    ensures { reading_as result ≡ read_of s.now }
{
    let Some(count) = read_header(s) else {
        return Err(Refused);
    };
    read_batches(s, count)
}

// Reads the stored bank that a buffer with room for a full one starts with.
#[tactic(auto, using(crate::proofs::Taking::opening))]
pub fn open(s: &[u8]) -> Result<Bank, Refused>
    ensures { reading_as result ≡ open_of s.now }
{
    if s.len() != ROOM {
        return Err(Refused);
    }
    let Some(front) = s.get(..length_field(s)) else {
        return Err(Refused);
    };
    read(front)
}
