// What an undo does otherwise than an execution.
ghost use Rattle.std.specs.Prelude.{◌≡◌, ◌<◌};
ghost use Rattle.step_pairs.specs.Kinds.{place_by, value_by};

#[derive(Clone, Copy)]
pub enum Kind {
    Undo,
    Execute,
}

// Of so many things in their order, the place of the one at k: an undo lists the last one first.
pub fn place_of(kind: Kind, count: usize, k: usize) -> usize
    requires { k < count }
    ensures { result ≡ place_by kind count k }
{
    match kind {
        Kind::Undo => count - 1 - k,
        Kind::Execute => k,
    }
}

// The value that is listed of a command's change: an undo restores the value before.
pub fn listed_value(kind: Kind, before: i32, after: i32) -> i32
    ensures { result ≡ value_by kind before after }
{
    match kind {
        Kind::Undo => before,
        Kind::Execute => after,
    }
}
