// Frames of the link: their form for either kind, and the host side that builds and reads them.
#![tactic(auto)]

ghost use Rattle.std.specs.Prelude.{◌≡◌, ◌+◌, ◌≤◌, length, take, drop};
ghost use Rattle.frame.specs.Frame.{xor_from, is_text, all_text, frame_of, tail_of, within_limits, marks_right, check_right, unit_in};
ghost use Rattle.base.specs.Test.{between};
ghost use Rattle.frame.specs.Answer.{build_of, locate_of, read_of, address_of};
ghost use Rattle.base.specs.Lists.{over};
ghost use Rattle.frame.specs.Numbers.{kind_numbered, silence_number, built_as, located_as, read_as, addressed_as};
ghost use Rattle.frame.specs.declared.ReadRefusal.TheVariants.{Silent};

// The two kinds of link.
#[derive(Clone, Copy, PartialEq, Eq)]
pub enum Kind {
    Minicomputer,
    Terminal,
}

// A number that stands for no kind of link.
#[derive(Clone, Copy, PartialEq, Eq)]
pub struct UnknownKind(pub u8);

impl TryFrom<u8> for Kind {
    type Error = UnknownKind;

    ghost try_from_gives = { λ number r. r ≡ kind_numbered number };

    fn try_from(number: u8) -> Result<Kind, UnknownKind> {
        match number {
            0 => Ok(Kind::Minicomputer),
            1 => Ok(Kind::Terminal),
            _ => Err(UnknownKind(number)),
        }
    }
}

// Why a request gets no reply, in the order of the tests.
#[derive(Clone, Copy, PartialEq, Eq)]
pub enum Silence {
    // S1
    InvalidRecord,
    // S2
    ShortReplyBuffer,
    // S3
    FrameLength,
    // S4
    Mark,
    // S5
    Check,
    // S6
    TextByte,
    // S7
    AddressOrCode,
    // S8
    OtherAddress,
}

// The n of Sn.
impl From<Silence> for u8 {
    ghost from_gives = { λ silence n. n ≡ silence_number silence };

    fn from(silence: Silence) -> u8 {
        match silence {
            Silence::InvalidRecord => 1,
            Silence::ShortReplyBuffer => 2,
            Silence::FrameLength => 3,
            Silence::Mark => 4,
            Silence::Check => 5,
            Silence::TextByte => 6,
            Silence::AddressOrCode => 7,
            Silence::OtherAddress => 8,
        }
    }
}

// Why no frame is built, in the order of the tests.
#[derive(Clone, Copy, PartialEq, Eq)]
pub enum BuildRefusal {
    // H1
    ShortBuffer,
    // H2
    TextLength,
    // H3
    TextByte,
}

// Why no text is read.
#[derive(Clone, Copy, PartialEq, Eq)]
pub enum ReadRefusal {
    // H1
    ShortBuffer,
    // S3 to S6
    Silent(Silence),
}

impl From<Silence> for ReadRefusal {
    ghost from_gives = { λ silence refusal. refusal ≡ Silent silence };

    fn from(silence: Silence) -> ReadRefusal {
        ReadRefusal::Silent(silence)
    }
}

// Whom a frame is for.
#[derive(Clone, Copy, PartialEq, Eq)]
pub struct Addressed {
    // The unit's address.
    pub unit: u8,
    // The text's length; the text starts at the second byte.
    pub length: usize,
}

// The least and the most bytes that a text has.
const SHORTEST_TEXT: usize = 4;

pub const LONGEST_TEXT: usize = 60;

// The least room for a reply, a frame that is built or a text that is read.
pub const ROOM: usize = 64;

pub const STX: u8 = 0x02;

pub const ETX: u8 = 0x03;

const PAD: u8 = 0x7f;

const STAR: u8 = b'*';

const CR: u8 = 0x0d;

const LF: u8 = 0x0a;

// The exclusive or of the bytes.
pub fn check(s: &[u8]) -> u8
    ensures { result ≡ xor_from 0 s.now }
{
    s.iter().fold(0, |sum, x| sum ^ x)
}

// The byte may stand in a text.
pub fn text_byte(x: u8) -> bool
    ensures { result ≡ is_text x }
{
    (0x20..=0x7e).contains(&x)
}

// Every byte may stand in a text.
pub fn printable(s: &[u8]) -> bool
    ensures { result ≡ all_text s.now }
{
    base::all_between(0x20, 0x7e, s)
}

// Puts the marks and the check around the text that stands from the second byte on. The room is asked for here and in the next two alone,
// which one call below the test of it reaches.
fn close_minicomputer(n: usize, out: &mut [u8])
    requires { n + 4 ≤ length out.old }
    ensures { out.new ≡ over (frame_of Kind.Minicomputer (take n (drop 1 out.old))) out.old }
{
    out[0] = STX;
    out[n + 1] = ETX;
    out[n + 2] = check(&out[1..n + 2]);
    out[n + 3] = PAD;
}

// Puts the marks around the text that stands from the second byte on.
fn close_terminal(n: usize, out: &mut [u8])
    requires { n + 3 ≤ length out.old }
    ensures { out.new ≡ over (frame_of Kind.Terminal (take n (drop 1 out.old))) out.old }
{
    out[0] = STAR;
    out[n + 1] = CR;
    out[n + 2] = LF;
}

// Makes a frame around the text of n bytes that stands from the second byte on, and gives the frame's length.
fn close(kind: Kind, n: usize, out: &mut [u8]) -> usize
    requires { n + 4 ≤ length out.old }
    ensures { (result ≡ length (frame_of kind (take n (drop 1 out.old)))) × (out.new ≡ over (frame_of kind (take n (drop 1 out.old))) out.old) }
{
    match kind {
        Kind::Minicomputer => {
            close_minicomputer(n, out);
            n + 4
        }
        Kind::Terminal => {
            close_terminal(n, out);
            n + 3
        }
    }
}

// Builds the frame of a text at the start of out. A refusal leaves out as it was.
#[tactic(auto, unfolding(crate::specs::Answer::build_of))]
pub fn build(kind: Kind, text: &[u8], out: &mut [u8]) -> Result<usize, BuildRefusal>
    ensures { (built_as result, out.new) ≡ build_of kind text.now out.old }
{
    if out.len() < ROOM {
        return Err(BuildRefusal::ShortBuffer);
    }
    let n = text.len();
    if !(SHORTEST_TEXT..=LONGEST_TEXT).contains(&n) {
        return Err(BuildRefusal::TextLength);
    }
    if !printable(text) {
        return Err(BuildRefusal::TextByte);
    }
    out[1..n + 1].copy_from_slice(text);
    Ok(close(kind, n, out))
}

// Builds the frame of the n bytes of text that out itself holds from its second byte on. A refusal leaves out as it was. Apart from
// build, which copies a text into out only once it is not refused.
#[tactic(auto, unfolding(crate::specs::Answer::build_of))]
pub fn enclose(kind: Kind, n: usize, out: &mut [u8]) -> Result<usize, BuildRefusal>
    ensures { (built_as result, out.new) ≡ build_of kind (take n (drop 1 out.old)) out.old }
{
    if out.len() < ROOM {
        return Err(BuildRefusal::ShortBuffer);
    }
    if !(SHORTEST_TEXT..=LONGEST_TEXT).contains(&n) {
        return Err(BuildRefusal::TextLength);
    }
    if !printable(&out[1..n + 1]) {
        return Err(BuildRefusal::TextByte);
    }
    Ok(close(kind, n, out))
}

// How many bytes follow the text.
fn tail(kind: Kind) -> usize
    ensures { result ≡ tail_of kind }
{
    match kind {
        Kind::Minicomputer => 3,
        Kind::Terminal => 2,
    }
}

// A frame's length is within the kind's limits.
#[tactic(auto, unfolding(crate::specs::Frame::within_limits))]
fn limits(kind: Kind, n: usize) -> bool
    ensures { result ≡ within_limits kind n }
{
    match kind {
        Kind::Minicomputer => (8..=64).contains(&n),
        Kind::Terminal => (7..=63).contains(&n),
    }
}

// The fixed marks stand in their places.
#[tactic(auto, unfolding(crate::specs::Frame::marks_right))]
fn marks(kind: Kind, frame: &[u8]) -> bool
    requires { 7 ≤ length frame.now }
    ensures { result ≡ marks_right kind frame.now }
{
    match kind {
        Kind::Minicomputer => matches!(frame, [STX, .., ETX, _, PAD]),
        Kind::Terminal => matches!(frame, [STAR, .., CR, LF]),
    }
}

// The check is right; a terminal frame has none.
#[tactic(auto, unfolding(crate::specs::Frame::check_right))]
fn check_right(kind: Kind, frame: &[u8]) -> bool
    requires { 7 ≤ length frame.now }
    ensures { result ≡ check_right kind frame.now }
{
    match kind {
        Kind::Minicomputer => matches!(frame, [_, summed @ .., sum, _] if check(summed) == *sum),
        Kind::Terminal => true,
    }
}

// The length of a frame's text, which starts at the second byte.
#[tactic(auto, using(crate::proofs::Steps::lengths), unfolding(crate::specs::Answer::locate_of, crate::specs::Frame::text_in))]
pub fn locate(kind: Kind, frame: &[u8]) -> Result<usize, Silence>
    ensures { located_as result ≡ locate_of kind frame.now }
{
    let n = frame.len();
    if !limits(kind, n) {
        return Err(Silence::FrameLength);
    }
    if !marks(kind, frame) {
        return Err(Silence::Mark);
    }
    if !check_right(kind, frame) {
        return Err(Silence::Check);
    }
    let end = n - tail(kind);
    if !printable(&frame[1..end]) {
        return Err(Silence::TextByte);
    }
    Ok(end - 1)
}

// Copies the text of a frame to the start of out, and gives the text's length. A refusal leaves out as it was.
#[tactic(auto, using(crate::proofs::Steps::located_sizes), unfolding(crate::specs::Answer::read_of))]
pub fn read(kind: Kind, frame: &[u8], out: &mut [u8]) -> Result<usize, ReadRefusal>
    ensures { (read_as result, out.new) ≡ read_of kind frame.now out.old }
{
    if out.len() < ROOM {
        return Err(ReadRefusal::ShortBuffer);
    }
    let n = locate(kind, frame)?;
    let text = &frame[1..n + 1];
    out[..n].copy_from_slice(text);
    Ok(n)
}

// The unit that a text names: its address is two digits, with two capitals behind them.
#[tactic(auto, unfolding(crate::specs::Frame::unit_in, crate::specs::Frame::names_unit, crate::specs::Frame::address_in))]
fn unit_in(text: &[u8]) -> Option<u8>
    ensures { result ≡ unit_in text.now }
{
    let &[tens, units, first, second, ..] = text else {
        return None;
    };
    if !(tens.is_ascii_digit()
        && units.is_ascii_digit()
        && first.is_ascii_uppercase()
        && second.is_ascii_uppercase())
    {
        return None;
    }
    Some((tens - b'0') * 10 + (units - b'0'))
}

// Says whom a frame is for. No reply buffer and no record is looked at.
#[tactic(auto, using(crate::proofs::Steps::located_sizes, crate::proofs::Steps::located_text), unfolding(crate::specs::Answer::address_of, crate::specs::Frame::unit_in))]
pub fn address(kind: Kind, frame: &[u8]) -> Result<Addressed, Silence>
    ensures { addressed_as result ≡ address_of kind frame.now }
{
    let length = locate(kind, frame)?;
    let unit = unit_in(&frame[1..length + 1]).ok_or(Silence::AddressOrCode)?;
    Ok(Addressed { unit, length })
}
