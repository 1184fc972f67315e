// The new log as it grows beside the old one, and how much of the old one is kept.
#![tactic(auto)]

ghost use Rattle.std.specs.Prelude.{◌≡◌, [], ◌∷◌, ◌++◌, ◌≤◌, ◌<◌};
ghost use Rattle.model.specs.Layout.{capacity};
ghost use Rattle.model.specs.Steps.{common, undos_of, executions_of};
ghost use Rattle.log_order.specs.LogOrder.{old_of, places_of, OrderRight, Begun, Placed};

use layout::CAPACITY;

// The old log and the new one so far, as places in the table, and how many at their start are the same.
#[derive(Clone, Copy)]
pub struct LogOrder {
    pub old: [u8; CAPACITY],
    pub old_count: usize,
    pub places: [u8; CAPACITY],
    pub count: usize,
    pub kept: usize,
}

impl LogOrder {
    // Nothing is placed yet.
    pub fn begin(old: [u8; CAPACITY], old_count: usize) -> LogOrder
        requires { old_count ≤ capacity }
        ensures { Begun old old_count result }
    {
        LogOrder {
            old,
            old_count,
            places: [0; CAPACITY],
            count: 0,
            kept: 0,
        }
    }

    // How many are kept once one more is placed.
    fn kept_with(self, i: u8) -> usize
        requires { OrderRight self }
        ensures { result ≡ common (old_of self) (places_of self ++ i ∷ []) }
    {
        let at = self.count;
        if self.kept < at {
            return self.kept;
        }
        if self.old_count <= at {
            return self.kept;
        }
        if self.old[at] != i {
            return self.kept;
        }
        at + 1
    }

    // The delta at a place of the table comes next.
    pub fn place(self, i: u8) -> LogOrder
        requires { OrderRight self × (self.count < capacity) }
        ensures { Placed self i result }
    {
        let at = self.count;
        let kept = self.kept_with(i);
        let mut next = self;
        next.places[at] = i;
        next.count = at + 1;
        next.kept = kept;
        next
    }

    // How many of the old log are undone.
    pub fn undos(self) -> usize
        requires { OrderRight self }
        ensures { result ≡ undos_of (old_of self) (places_of self) }
    {
        self.old_count - self.kept
    }

    // How many of the new log are executed.
    pub fn executions(self) -> usize
        requires { OrderRight self }
        ensures { result ≡ executions_of (old_of self) (places_of self) }
    {
        self.count - self.kept
    }
}
