// A start put in among others.
ghost use Rattle.std.specs.Prelude.{◌≡◌, ◌+◌, ◌≤◌, ◌<◌, length, take};
ghost use Rattle.model.specs.Layout.{capacity};
ghost use Rattle.set_table.specs.Table.{insert_at};

// Puts a start in at a place among the first count; those from the place on move one on.
#[tactic(auto, using(crate::proofs::Inserted::copied_insert))]
pub fn insert_start(starts: &mut [u16], count: usize, p: usize, at: u16)
    requires { (length starts.old ≡ capacity) × (count < capacity) × (p ≤ count) }
    ensures { take (count + 1) starts.new ≡ insert_at p at (take count starts.old) }
{
    starts.copy_within(p..count, p + 1);
    starts[p] = at;
}
