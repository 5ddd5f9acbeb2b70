// The check of the Modbus standard: of a list of bytes, and at the end of a frame.
#![tactic(auto)]

ghost use Rattle.std.specs.Prelude.{◌≡◌};
ghost use Rattle.crc.specs.Crc.{shifted, shifted_times, crc_of, crc_right, seal_of};

// The polynomial of the standard.
const POLYNOMIAL: u16 = 0xa001;

// One shift of the register.
#[tactic(auto, using(crate::proofs::Steps::shift_odd, crate::proofs::Steps::shift_even))]
fn shifted(register: u16) -> u16
    ensures { result ≡ shifted register }
{
    if register & 1 == 1 {
        return (register >> 1) ^ POLYNOMIAL;
    }
    register >> 1
}

// Eight shifts. They stand as the standard has them: the compiler makes a look-up in a table of this loop, which was measured to
// be faster than a table here.
#[tactic(auto, using(crate::proofs::Steps::shift_again, crate::proofs::Steps::shift_done))]
fn eight_shifts(register: u16) -> u16
    ensures { result ≡ shifted_times 8 register }
{
    let mut shifting = register;
    for _ in 0..u8::BITS {
        shifting = shifted(shifting);
    }
    shifting
}

// The check of the bytes.
pub fn check(s: &[u8]) -> u16
    ensures { result ≡ crc_of s.now }
{
    s.iter().fold(
        0xffff,
        |register, byte| eight_shifts(register ^ u16::from(*byte)),
    )
}

// The last two bytes are the check of those before them, low byte first.
#[tactic(auto, using(crate::proofs::Steps::right_short, crate::proofs::Steps::right_long))]
pub fn is_right(frame: &[u8]) -> bool
    ensures { result ≡ crc_right frame.now }
{
    let [body @ .., low, high] = frame else {
        return false;
    };
    [*low, *high] == check(body).to_le_bytes()
}

// Lays the check of the first n bytes behind them, and gives the length with it. Without room for it nothing is laid.
#[tactic(auto, using(crate::proofs::Steps::seal_short, crate::proofs::Steps::seal_laid))]
pub fn seal(n: usize, out: &mut [u8]) -> Option<usize>
    ensures { (result, out.new) ≡ seal_of n out.old }
{
    if out.len() < 2 || out.len() - 2 < n {
        return None;
    }
    let sum = check(&out[..n]);
    out[n..n + 2].copy_from_slice(&sum.to_le_bytes());
    Some(n + 2)
}
