// The delta that comes next: of the deltas by key the first that is ready.
ghost use Rattle.std.specs.Prelude.{◌≡◌, length};
ghost use Rattle.set_readiness.specs.Ready.{marks_size};
ghost use Rattle.log_listing.specs.Next.{Marked, Lookable, Skips, FirstReady};

use set_readiness::ready;

// The place of the first from `from` on that is not placed; that of the end where all are.
pub fn skip_placed(sorted: &[u8], placed: &[u8], from: usize) -> usize
    requires { (length placed.now ≡ marks_size) × Marked sorted.now }
    ensures { Skips sorted.now placed.now from result }
{
    for k in from..sorted.len() {
        let i = sorted[k] as usize;
        if placed[i] == 0 {
            return k;
        }
    }
    sorted.len()
}

// The index of the first from `from` on that is ready.
pub fn first_ready(
    rows: &[u8],
    counts: &[u8],
    sorted: &[u8],
    placed: &[u8],
    from: usize,
) -> Option<usize>
    requires { Lookable rows.now counts.now sorted.now × (length placed.now ≡ marks_size) }
    ensures { FirstReady rows.now counts.now sorted.now placed.now from result }
{
    for k in from..sorted.len() {
        let i = sorted[k] as usize;
        if ready(rows, counts, placed, i) {
            return Some(i);
        }
    }
    None
}
