// A number in decimal: the digit 0, and the most digits.
pub const ZERO: usize = 48;

pub const DIGITS: usize = 7;
