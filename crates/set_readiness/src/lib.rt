// What is ready, by its row of needs; and the greatest of the numbers that stand beside a delta's needs.
#![tactic(auto)]

ghost use Rattle.std.specs.Prelude.{◌≡◌, ◌<◌, max, length};
ghost use Rattle.set_needs.specs.Rows.{RowFits};
ghost use Rattle.set_readiness.specs.Ready.{marks_size, ready_in, greatest_along};

use layout::CAPACITY;
use set_needs::rows::ROW;

// A mark for each delta, and one for what is missing, which is never placed.
pub const MARKS: usize = CAPACITY + 1;

// Whether a delta is not placed yet, and all that it needs is. What is placed has a mark that is not 0.
#[tactic(auto, using(crate::proofs::Waiting::waiting))]
pub fn ready(rows: &[u8], counts: &[u8], placed: &[u8], i: usize) -> bool
    requires { RowFits rows.now counts.now i × (length placed.now ≡ marks_size) × (i < marks_size) }
    ensures { result ≡ ready_in rows.now counts.now placed.now i }
{
    if placed[i] != 0 {
        return false;
    }
    let from = ROW * i;
    let needs = &rows[from..from + counts[i] as usize];
    for need in needs {
        if placed[*need as usize] == 0 {
            return false;
        }
    }
    true
}

// The greater of two numbers.
pub fn greater(a: u32, b: u32) -> u32
    ensures { result ≡ max a b }
{
    a.max(b)
}

// The greatest of a delta's own number and the numbers of its needs.
#[tactic(auto, using(crate::proofs::Greatest::greatest_so_far))]
pub fn greatest_along(rows: &[u8], counts: &[u8], numbers: &[u32], i: usize, own: u32) -> u32
    requires { RowFits rows.now counts.now i × (length numbers.now ≡ marks_size) }
    ensures { result ≡ greatest_along rows.now counts.now numbers.now i own }
{
    let from = ROW * i;
    let needs = &rows[from..from + counts[i] as usize];
    let mut greatest = own;
    for need in needs {
        greatest = greater(greatest, numbers[*need as usize]);
    }
    greatest
}
