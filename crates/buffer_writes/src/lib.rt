// Leaf functions that write byte slices: big-endian numbers, a copy, zeros to the end.
#![tactic(auto)]

ghost use Rattle.std.specs.Prelude.{◌≡◌, ◌++◌, ◌+◌, ◌-◌, ◌≤◌, length, take, replicate};
ghost use Rattle.std.proofs.Math.Seq.{paste};
ghost use Rattle.model.specs.Bytes.{bytes};

// Writes the low two bytes of a number, big-endian.
pub fn put_u16(s: &mut [u8], at: usize, v: u32)
    requires { at + 2 ≤ length s.old }
    ensures { s.new ≡ paste s.old at (bytes 2 v) 2 }
{
    s[at] = (v / 256 % 256) as u8;
    s[at + 1] = (v % 256) as u8;
}

// Writes a number as four bytes, big-endian.
pub fn put_u32(s: &mut [u8], at: usize, v: u32)
    requires { at + 4 ≤ length s.old }
    ensures { s.new ≡ paste s.old at (bytes 4 v) 4 }
{
    put_u16(s, at, v / 65536);
    put_u16(s, at + 2, v);
}

// Writes a number as eight bytes, big-endian.
pub fn put_u64(s: &mut [u8], at: usize, v: u64)
    requires { at + 8 ≤ length s.old }
    ensures { s.new ≡ paste s.old at (bytes 8 v) 8 }
{
    put_u32(s, at, (v / 4294967296) as u32);
    put_u32(s, at + 4, (v % 4294967296) as u32);
}

// Copies the first n bytes of a slice into another from a place on.
pub fn copy_at(dst: &mut [u8], at: usize, src: &[u8], n: usize)
    requires { (n ≤ length src.now) × (at + n ≤ length dst.old) }
    ensures { dst.new ≡ paste dst.old at src.now n }
{
    dst[at..at + n].copy_from_slice(&src[..n]);
}

// Writes zeros from a place on to the end.
pub fn clear_from(dst: &mut [u8], at: usize)
    requires { at ≤ length dst.old }
    ensures { dst.new ≡ take at dst.old ++ replicate (length dst.old - at) 0 }
{
    dst[at..].fill(0);
}
