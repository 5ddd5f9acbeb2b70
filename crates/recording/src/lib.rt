// Recordings, version 1: their form.
#![tactic(auto)]

ghost use Rattle.std.specs.Prelude.{◌≡◌, ◌≤◌, length, drop};
ghost use Rattle.recording.specs.Form.{header_width, exchanges_in, exchange_at, recording_of, summary, read_as, count_of, refusal_number};

use state::{ACCESS_RANGE, ADDRESS_RANGE, within};

// Why a recording is refused.
#[derive(Clone, Copy, PartialEq, Eq)]
pub enum Refusal {
    // J1
    Length,
    // J2
    Version,
    // J3
    LengthField,
    // J4
    Header,
    // J5
    Cut,
}

// The number of J1 to J5.
impl From<Refusal> for u8 {
    ghost from_gives = { λ refusal n. n ≡ refusal_number refusal };

    fn from(refusal: Refusal) -> u8 {
        match refusal {
            Refusal::Length => 1,
            Refusal::Version => 2,
            Refusal::LengthField => 3,
            Refusal::Header => 4,
            Refusal::Cut => 5,
        }
    }
}

// Where an exchange has its request, up to stop, and its reply, up to end, where the next exchange starts.
#[derive(Clone, Copy)]
pub struct Spans {
    pub request: usize,
    pub stop: usize,
    pub reply: usize,
    pub end: usize,
}

// A header's address and access, and how many exchanges there are.
#[derive(Clone, Copy)]
pub struct Recorded {
    pub address: u8,
    pub access: u8,
    pub count: usize,
}

pub const HEADER: usize = 5;

// The exchange that starts at a place: none at the end; Refusal::Cut if it goes beyond.
#[tactic(auto, using(crate::proofs::Laws::standing))]
pub fn exchange_at(s: &[u8], at: usize) -> Result<Option<Spans>, Refusal>
    ensures { result ≡ exchange_at s.now at }
{
    if s.len() <= at {
        return Ok(None);
    }
    let left = s.len() - at;
    let request = usize::from(s[at]);
    if left <= request + 1 {
        return Err(Refusal::Cut);
    }
    let reply = usize::from(s[at + 1 + request]);
    if left < request + 2 + reply {
        return Err(Refusal::Cut);
    }
    Ok(Some(Spans {
        request: at + 1,
        stop: at + 1 + request,
        reply: at + 2 + request,
        end: at + 2 + request + reply,
    }))
}

// How many exchanges there are to the end.
#[tactic(auto, using(crate::proofs::Laws::counting))]
fn count_exchanges(s: &[u8]) -> Result<usize, Refusal>
    requires { header_width ≤ length s.now }
    ensures { result ≡ count_of (exchanges_in (length s.now) (drop header_width s.now)) }
{
    let mut at = HEADER;
    let mut count = 0;
    // From exchange to exchange, by `exchange_at`, of which C asks too.
    while let Some(spans) = exchange_at(s, at)? {
        at = spans.end;
        count += 1;
    }
    Ok(count)
}

// Reads a recording's header and counts its exchanges. Refusals over the entire recording come before any judging.
#[tactic(auto, using(crate::proofs::Laws::reading))]
pub fn read_recording(s: &[u8]) -> Result<Recorded, Refusal>
    ensures { read_as result ≡ summary (recording_of s.now) }
{
    let &[version, high, low, address, access, ..] = s else {
        return Err(Refusal::Length);
    };
    if usize::from(u16::MAX) < s.len() {
        return Err(Refusal::Length);
    }
    if version != 1 {
        return Err(Refusal::Version);
    }
    if usize::from(u16::from_be_bytes([high, low])) != s.len() {
        return Err(Refusal::LengthField);
    }
    if !within(ADDRESS_RANGE, u32::from(address)) || !within(ACCESS_RANGE, u32::from(access)) {
        return Err(Refusal::Header);
    }
    let count = count_exchanges(s)?;
    Ok(Recorded {
        address,
        access,
        count,
    })
}
