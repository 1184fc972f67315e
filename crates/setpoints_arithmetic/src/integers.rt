// Values in buffers are two's complement, in four bytes.
ghost use Rattle.std.specs.Prelude.{◌≡◌};
ghost use Rattle.model.specs.Bytes.{integer, word};

// The integer of a number of four bytes.
pub fn of_word(n: u32) -> i32
    ensures { result ≡ integer n }
{
    if n < 2147483648 {
        return n as i32;
    }
    let below = (4294967295 - n) as i32;
    -1 - below
}

// The number of four bytes of an integer.
pub fn to_word(v: i32) -> u32
    ensures { result ≡ word v }
{
    if v < 0 {
        let below = (-1 - v) as u32;
        return 4294967295 - below;
    }
    v as u32
}
