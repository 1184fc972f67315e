// The three operations of a command, on a tag's value x and the command's value v.
ghost use Rattle.std.specs.Prelude.{◌≡◌, ◌+ℤ◌};
ghost use Rattle.model.specs.Setpoints as model;

use layout::{HIGHEST_VALUE, LOWEST_VALUE};

// The sum at 64 bits, where it never wraps.
fn sum(x: i32, v: i32) -> i64
    ensures { result ≡ x +ℤ v }
{
    (x as i64) + (v as i64)
}

// The number, stopped at low and at high.
#[tactic(auto, unfolding(model::specs::Setpoints::stop))]
fn stop(low: i32, high: i32, z: i64) -> i32
    ensures { result ≡ model.stop low high z }
{
    if z < (low as i64) {
        return low;
    }
    if (high as i64) < z {
        return high;
    }
    z as i32
}

// The greater of the two.
#[tactic(auto, unfolding(model::specs::Setpoints::raise))]
fn raise_to(x: i32, v: i32) -> i32
    ensures { result ≡ model.raise x v }
{
    if x < v {
        return v;
    }
    x
}

// Operation 1 sets, 2 adds, any other raises.
#[tactic(auto, unfolding(model::specs::Setpoints::operate))]
pub fn operate(operation: u32, x: i32, v: i32) -> i32
    ensures { result ≡ model.operate operation x v }
{
    if operation == 1 {
        return v;
    }
    if operation == 2 {
        return stop(LOWEST_VALUE, HIGHEST_VALUE, sum(x, v));
    }
    raise_to(x, v)
}
