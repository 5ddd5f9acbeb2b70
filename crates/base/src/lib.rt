// A test on bytes that the other crates share.
#![tactic(auto)]

ghost use Rattle.std.specs.Prelude.{◌≡◌};
ghost use Rattle.base.specs.Test.{all_between};

// Each byte is one of low to high. The iterator's `all` would take an instruction a byte more.
pub fn all_between(low: u8, high: u8, s: &[u8]) -> bool
    ensures { result ≡ all_between low high s.now }
{
    for x in s {
        if !(low..=high).contains(x) {
            return false;
        }
    }
    true
}
