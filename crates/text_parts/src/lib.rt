// A part of a text, looked at: a sequence's characters, and the comma behind them. Behind the last part no comma stands.
#![tactic(auto)]

ghost use Rattle.std.specs.Prelude.{◌≡◌, [], ◌∷◌, ◌++◌, ◌+◌, ◌≤◌, length, take, drop};
ghost use Rattle.model.specs.Lists.{every};
ghost use Rattle.model.specs.Layout.{characters_size, text_part_size};
ghost use Rattle.model.specs.Text.{comma, is_digit, text_part_right};
ghost use Rattle.refusals.specs.Refusals.{checked};
ghost use Rattle.refusals.specs.declared.Refusal.TheVariants.{WrongForm};
ghost use Rattle.text_digits.specs.DigitTable.{HasDigits};

use layout::CHARACTERS_SIZE;
use refusals::Refusal;
use text_digits::{CHARACTER_COUNT, COMMA, NO_DIGIT, digit};

// Whether the characters of a sequence are digits. It looks at all of them.
fn are_digits(table: &[u8; CHARACTER_COUNT], text: &[u8], at: usize) -> bool
    requires { HasDigits table.now × (at + characters_size ≤ length text.now) }
    ensures { result ≡ every is_digit (take characters_size (drop at text.now)) }
{
    text[at..at + CHARACTERS_SIZE]
        .iter()
        .fold(true, |ok, c| ok & (digit(table, *c) != NO_DIGIT))
}

// The part that starts at a place of a text behind which a comma is put.
#[tactic(auto, using(crate::proofs::Parts::parts))]
pub fn check_part(table: &[u8; CHARACTER_COUNT], text: &[u8], at: usize) -> Result<(), Refusal>
    requires { HasDigits table.now × (at + characters_size ≤ length text.now) }
    ensures { result ≡ checked WrongForm (text_part_right (take text_part_size (drop at (text.now ++ comma ∷ [])))) }
{
    if !are_digits(table, text, at) {
        return Err(Refusal::WrongForm);
    }
    let behind = at + CHARACTERS_SIZE;
    if behind == text.len() {
        return Ok(());
    }
    if text[behind] != COMMA {
        return Err(Refusal::WrongForm);
    }
    Ok(())
}
