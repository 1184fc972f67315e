// Whether the key at a place of a log is above those before it.
ghost use Rattle.log_check.specs.Above.{Comparable, Above};

use log_key::key_less;

// Whether the key at place k is above those of all places from `from` on. Where a key is above the one at place q, it is above
// all from froms[q] on, of which that one is the greatest.
pub fn above(keys: &[u64], places: &[u8], froms: &[u8], from: usize, k: usize) -> bool
    requires { Comparable keys.now places.now froms.now k }
    ensures { Above keys.now places.now from k result }
{
    let last = places[k] as usize;
    // A while: the end leaps back to where an earlier delta was ready from, it is not counted down.
    let mut end = k;
    while from < end {
        let q = end - 1;
        let earlier = places[q] as usize;
        if !key_less(keys, earlier, last) {
            return false;
        }
        end = froms[q] as usize;
    }
    true
}
