// What the texts of a drum change are made of.
ghost use Rattle.std.specs.Prelude.{◌≤◌};

// A number in full width.
#[derive(Clone, Copy)]
pub struct Number {
    // Its digits.
    pub width: usize,
    pub value: u32,
    ghost narrow: { width ≤ 8 },
}

// Two letters, and up to two numbers behind them.
#[derive(Clone, Copy)]
pub struct Message {
    pub letters: [u8; 2],
    pub first: Option<Number>,
    pub second: Option<Number>,
}
