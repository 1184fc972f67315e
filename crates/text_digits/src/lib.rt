// The characters of a text: the table of 256 characters and their digits, the character of a digit, the comma.
#![tactic(auto)]

mod entries;

ghost use Rattle.std.specs.Prelude.{◌≡◌, ◌<◌};
ghost use Rattle.model.specs.Text.{digit_of, character_of};
ghost use Rattle.text_digits.specs.DigitTable.{HasDigits};

use crate::entries::DIGIT_TABLE;

// how many characters there are
pub const CHARACTER_COUNT: usize = 256;

// what stands between two sequences of a text
pub const COMMA: u8 = b',';

// what the table has for a character that is no digit
pub const NO_DIGIT: u8 = 255;

// The table, for a caller that looks up many characters in it.
pub fn digits() -> [u8; CHARACTER_COUNT]
    ensures { HasDigits result }
{
    DIGIT_TABLE
}

// The digit of a character, or 255.
pub fn digit(table: &[u8; CHARACTER_COUNT], character: u8) -> u8
    requires { HasDigits table.now }
    ensures { result ≡ digit_of character }
{
    table[character as usize]
}

// The character of a digit.
#[tactic(auto, unfolding(model::specs::Text::character_of))]
pub fn character(value: u8) -> u8
    requires { value < 16 }
    ensures { result ≡ character_of value }
{
    if value < 10 {
        return b'0' + value;
    }
    b'A' + (value - 10)
}
