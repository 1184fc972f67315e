// A buffer compared with the image that was written into zeros.
ghost use Rattle.std.specs.Prelude.{◌≡◌, ◌-◌, ◌≤◌, length, drop, replicate};
ghost use Rattle.model.specs.Lists.{same as same_list};

use buffer_reads::same;

// Whether a buffer holds what a copy does, which is zero past its used bytes: there only the buffer is looked at.
pub fn equals_copy(copy: &[u8], used: usize, b: &[u8]) -> bool
    requires { (length copy.now ≡ length b.now) × (used ≤ length b.now) × (drop used copy.now ≡ replicate (length b.now - used) 0) }
    ensures { result ≡ same_list copy.now b.now }
{
    if !same(&copy[..used], &b[..used]) {
        return false;
    }
    let mut zero = true;
    for byte in &b[used..] {
        zero = zero & (*byte == 0);
    }
    zero
}
