// A command's change (tag, before, after): made, and applied to the values.
#![tactic(auto)]

ghost use Rattle.std.specs.Prelude.{◌≡◌, ◌+◌, ◌≤◌, pos, length, take, drop, get_or};
ghost use Rattle.model.specs.Bytes.{field};
ghost use Rattle.model.specs.Layout.{command_size, tag_at};
ghost use Rattle.model.specs.Setpoints as model;
ghost use Rattle.setpoints_changes.specs.Changes.{change_in};

use buffer_reads::{byte, get_u32};
use layout::{OPERATION_AT, TAG_AT, VALUE_AT};
use setpoints_arithmetic::integers::of_word;
use setpoints_arithmetic::operations::operate;

// A command's tag, and the tag's value before and after it.
#[derive(Clone, Copy, Default)]
pub struct Change {
    pub tag: u8,
    pub before: i32,
    pub after: i32,
}

// The value of a tag. A tag past the last one has none, and reads as 0.
fn value_of(values: &[i32], tag: u8) -> i32
    ensures { result ≡ get_or values.now tag (pos 0) }
{
    values.get(tag as usize).copied().unwrap_or(0)
}

// The tag of the command at a place.
fn tag_of(c: &[u8], at: usize) -> u8
    requires { at + command_size ≤ length c.now }
    ensures { result ≡ field c.now (at + tag_at) 1 }
{
    byte(c, at + TAG_AT) as u8
}

// The change that the command at a place makes.
pub fn change_of(values: &[i32], c: &[u8], at: usize) -> Change
    requires { at + command_size ≤ length c.now }
    ensures { change_in result ≡ model.change_of (take command_size (drop at c.now)) values.now }
{
    let operation = byte(c, at + OPERATION_AT);
    let v = of_word(get_u32(c, at + VALUE_AT));
    let tag = tag_of(c, at);
    let before = value_of(values, tag);
    let after = operate(operation, before, v);
    Change { tag, before, after }
}

// Sets a change's tag to the value after. A tag past the last one changes nothing.
#[tactic(auto, using(crate::proofs::Applying::applying), unfolding(model::specs::Setpoints::apply))]
pub fn apply(values: &mut [i32], change: Change)
    ensures { values.new ≡ model.apply (change_in change) values.old }
{
    let tag = change.tag as usize;
    if tag < values.len() {
        values[tag] = change.after;
    }
}
