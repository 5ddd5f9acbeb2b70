// Several minicomputer frames in one lent buffer, answered in order as single calls would be.
#![tactic(auto)]

ghost use Rattle.std.specs.Prelude.{◌≡◌, ◌≤◌, length, drop};
ghost use Rattle.several.specs.Several.{SteadyLaws, several_held, steady_record};
ghost use Rattle.several.specs.Beside.{steady_banked};
ghost use Rattle.several.specs.Answers.{start_from, found_from, due_of, turn_from, several_as};

use banked::Banked;
use controller::{Called, Held};
use frame::{Addressed, ETX, Kind, LONGEST_TEXT, ROOM, STX, Silence};
use state::Record;

// ETX and its two followers.
const TRAILER: usize = 3;

// What is reported: bytes taken, frames answered and reply bytes.
#[derive(Clone, Copy)]
pub struct Report {
    pub taken: usize,
    pub answered: usize,
    pub written: usize,
}

// The report, or S1, at which nothing is taken.
pub type Answer = Result<Report, Silence>;

// What the walk rests on: replies fit, and what is held stays valid and at its address.
pub trait Steady: Held {
    ghost steady: { SteadyLaws Self.valid Self.address Self.reply_text Self.called };
}

impl Steady for Record {
    ghost steady = { steady_record };
}

impl Steady for Banked {
    ghost steady = { steady_banked };
}

// A frame that stands in the bytes: where it starts, and where it ends.
#[derive(Clone, Copy)]
struct Frame {
    start: usize,
    end: usize,
}

// Why a frame gets no answer.
#[derive(Clone, Copy)]
enum NotDue {
    // S3 to S7
    Refused,
    // S8
    OtherUnit,
    // An answer is due, for which there is no room.
    NoRoom,
}

// A frame to which an answer is due: where its text starts, where the text ends, and where the frame ends.
#[derive(Clone, Copy)]
struct Turn {
    text: usize,
    text_end: usize,
    end: usize,
}

// The place of the next STX at or after a place, or the end.
// A place within the bytes, here and in the two that call this, and no part of them: the places that are told are of the whole.
#[tactic(auto, using(crate::proofs::Seek::start_form))]
fn next_start(bytes: &[u8], from: usize) -> usize
    requires { from ≤ length bytes.now }
    ensures { result ≡ start_from from (drop from bytes.now) }
{
    let rest = &bytes[from..];
    from + rest
        .iter()
        .position(|byte| *byte == STX)
        .unwrap_or(rest.len())
}

// The next frame at or after a place; or where the walk stops: at the end, or at an STX that is not decided. The search for its ETX leaves
// the walk with the place where it stands.
fn next_frame(bytes: &[u8], from: usize) -> Result<Frame, usize>
    requires { from ≤ length bytes.now }
    ensures { result ≡ found_from from (drop from bytes.now) }
{
    let mut start = from;
    let place = 'walk: loop {
        start = next_start(bytes, start);
        if bytes.len() <= start {
            return Err(start);
        }
        'search: for at in start + 1..bytes.len() {
            if !frame::text_byte(bytes[at]) {
                if bytes[at] == ETX {
                    break 'walk at;
                }
                // a break
                start += 1;
                continue 'walk;
            }
            // so is a 61st text byte
            if LONGEST_TEXT < at - start {
                start += 1;
                continue 'walk;
            }
        }
        return Err(start);
    };
    if bytes.len() - place < TRAILER {
        return Err(start);
    }
    Ok(Frame {
        start,
        end: place + TRAILER,
    })
}

// The length of the text that starts at a frame's second byte, if an answer is due from the unit with this address, which has so much reply
// room. The room counts only where an answer is due.
#[tactic(auto, unfolding(crate::specs::Answers::due_of))]
fn due_to(address: u8, request: &[u8], room: usize) -> Result<usize, NotDue>
    ensures { result ≡ due_of address room request.now }
{
    let Ok(Addressed { unit, length }) = frame::address(Kind::Minicomputer, request) else {
        return Err(NotDue::Refused);
    };
    if unit != address {
        return Err(NotDue::OtherUnit);
    }
    if room < ROOM {
        return Err(NotDue::NoRoom);
    }
    Ok(length)
}

// The next frame at or after a place to which an answer is due, those that get none being passed; or where the walk stops: as above, or at a
// frame whose answer has no room. This is all of the walk that does not ask what is held: every entry takes its frames from here.
fn next_due(address: u8, bytes: &[u8], from: usize, room: usize) -> Result<Turn, usize>
    requires { from ≤ length bytes.now }
    ensures { result ≡ turn_from address room 0 from (drop from bytes.now) }
{
    let mut taken = from;
    // From frame to frame: where the next one may start is known only when one was read.
    loop {
        let Frame { start, end } = next_frame(bytes, taken)?;
        match due_to(address, &bytes[start..end], room) {
            Ok(length) => {
                let text = start + 1;
                return Ok(Turn {
                    text,
                    text_end: text + length,
                    end,
                });
            }
            Err(NotDue::Refused) => {
                taken = start + 1;
            }
            Err(NotDue::OtherUnit) => {
                taken = end;
            }
            Err(NotDue::NoRoom) => {
                return Err(start);
            }
        }
    }
}

// Answers all frames in the lent bytes, replies end to end.
pub fn call<H: Steady>(before: H, bytes: &[u8], out: &mut [u8]) -> Called<Answer, H>
    ensures { several_as result.answer result.after out.new ≡ several_held H.called H.valid before bytes.now out.old }
{
    if !before.is_valid() {
        return Called {
            answer: Err(Silence::InvalidRecord),
            after: before,
        };
    }
    let address = before.address();
    let mut taken = 0;
    let mut answered = 0;
    let mut written = 0;
    let mut held = before;
    loop {
        match next_due(address, bytes, taken, out.len() - written) {
            Err(place) => {
                return Called {
                    answer: Ok(Report {
                        taken: place,
                        answered,
                        written,
                    }),
                    after: held,
                };
            }
            Ok(turn) => {
                let text = &bytes[turn.text..turn.text_end];
                let replied = held.reply_to(Kind::Minicomputer, text, &mut out[written..]);
                taken = turn.end;
                // there is room, so it is no silence
                answered += 1;
                written += replied.answer.unwrap_or(0);
                if let Some(writing) = replied.effect {
                    held.carry_out(writing);
                }
            }
        }
    }
}
