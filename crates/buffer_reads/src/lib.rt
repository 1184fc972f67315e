// Leaf functions that read byte slices: big-endian numbers, and a comparison.
#![tactic(auto)]

ghost use Rattle.std.specs.Prelude.{◌≡◌, ◌+◌, ◌<◌, ◌≤◌, length};
ghost use Rattle.model.specs.Bytes.{field};
ghost use Rattle.model.specs.Lists.{same as same_list};

// The byte at a place.
pub fn byte(s: &[u8], at: usize) -> u32
    requires { at < length s.now }
    ensures { (result ≡ field s.now at 1) × (result < 256) }
{
    s[at] as u32
}

// The big-endian number of two bytes.
pub fn get_u16(s: &[u8], at: usize) -> u32
    requires { at + 2 ≤ length s.now }
    ensures { (result ≡ field s.now at 2) × (result < 65536) }
{
    byte(s, at) * 256 + byte(s, at + 1)
}

// The big-endian number of four bytes.
pub fn get_u32(s: &[u8], at: usize) -> u32
    requires { at + 4 ≤ length s.now }
    ensures { result ≡ field s.now at 4 }
{
    get_u16(s, at) * 65536 + get_u16(s, at + 2)
}

// The big-endian number of eight bytes. In two sums of two, which the compiler turns into one load.
pub fn get_u64(s: &[u8], at: usize) -> u64
    requires { at + 8 ≤ length s.now }
    ensures { result ≡ field s.now at 8 }
{
    let a = get_u16(s, at) as u64;
    let b = get_u16(s, at + 2) as u64;
    let c = get_u16(s, at + 4) as u64;
    let d = get_u16(s, at + 6) as u64;
    let high = a * 281474976710656 + b * 4294967296;
    let low = c * 65536 + d;
    high + low
}

// Whether two slices hold the same bytes.
pub fn same(a: &[u8], b: &[u8]) -> bool
    ensures { result ≡ same_list a.now b.now }
{
    a == b
}
