// The pairs of a step, written from the changes that its delta makes; what an undo does otherwise than an execution.
#![tactic(auto)]

pub mod kinds;

ghost use Rattle.std.specs.Prelude.{◌≡◌, ◌+◌, ◌*◌, ◌≤◌, map, length};
ghost use Rattle.std.proofs.Math.Seq.{paste};
ghost use Rattle.model.specs.Layout.{pair_size};
ghost use Rattle.model.specs.Steps.{pair_of, pair_bytes};
ghost use Rattle.setpoints_changes.specs.Changes.{change_in};
ghost use Rattle.step_pairs.specs.Kinds.{pairs_by};
ghost use Rattle.step_pairs.specs.Pairs.{with_pairs};

use crate::kinds::{Kind, listed_value, place_of};
use buffer_writes::put_u32;
use layout::{PAIR_SIZE, PAIR_TAG_SIZE};
use setpoints_arithmetic::integers::to_word;
use setpoints_changes::Change;

// Writes a pair.
fn put_pair(steps: &mut [u8], at: usize, tag: u8, value: i32)
    requires { at + pair_size ≤ length steps.old }
    ensures { steps.new ≡ paste steps.old at (pair_bytes (pair_of tag value)) pair_size }
{
    let behind = at + PAIR_TAG_SIZE;
    put_u32(steps, at, tag as u32);
    put_u32(steps, behind, to_word(value));
}

// Writes the pairs of changes, in the order and with the values of a kind of step.
pub fn put_pairs(steps: &mut [u8], at: usize, kind: Kind, changes: &[Change])
    requires { at + pair_size * length changes.now ≤ length steps.old }
    ensures { steps.new ≡ with_pairs steps.old at (pairs_by kind (map change_in changes.now)) }
{
    for k in 0..changes.len() {
        let change = changes[place_of(kind, changes.len(), k)];
        let value = listed_value(kind, change.before, change.after);
        put_pair(steps, at + PAIR_SIZE * k, change.tag, value);
    }
}
