// A new message joins the station: the new log beside the old one, the image and the steps.
#![tactic(auto)]

ghost use Rattle.std.specs.Prelude.{◌≡◌, [], length};
ghost use Rattle.model.specs.Order.{add};
ghost use Rattle.model.specs.Image.{state_in};
ghost use Rattle.model.specs.Calls.{accepted_answer};
ghost use Rattle.set_table.specs.Table.{set_in, Holds};
ghost use Rattle.image_sections.specs.LogPlaces.{ImageInput};
ghost use Rattle.deliver_steps.specs.Room.{StepsFit};
ghost use Rattle.log_order.specs.LogOrder.{places_of, OrderRight};
ghost use Rattle.log_listing.specs.Ordered.{Ordered};
ghost use Rattle.deliver_accepting.specs.Accepting.{accepted_by, IsWritten, Updatable, Updates, Acceptable};

use buffer_writes::copy_at;
use deliver_steps::write_steps;
use image::write_used;
use image_listed::Station;
use layout::{CAPACITY, IMAGE_SIZE};
use log_key::KEYS;
use log_listing::listing::order;
use log_order::LogOrder;
use log_prepared::prepare;
use set_needs::rows::ROWS;
use set_table::shifting::shift_places;

// How many deltas of the old log are undone, and how many of the new one executed.
#[derive(Clone, Copy)]
pub struct Counts {
    pub undos: usize,
    pub executions: usize,
}

// The log of a table's set beside the old one, from an order that has placed none.
fn order_table(pool: &[u8], starts: &[u16], begun: LogOrder) -> LogOrder
    requires { Holds pool.now starts.now × OrderRight begun × (places_of begun ≡ []) }
    ensures { Ordered (set_in pool.now starts.now) begun result }
{
    let mut rows = [0u8; ROWS];
    let mut counts = [0u8; CAPACITY];
    let mut keys = [0u64; KEYS];
    prepare(&mut rows, &mut counts, &mut keys, pool, starts);
    order(pool, starts, &rows, &counts, &keys, begun)
}

// Writes the used bytes of the image of a table's set, whose log is the new one, and the steps to it from the old one.
fn write_change(
    image: &mut [u8],
    steps: &mut [u8],
    pool: &[u8],
    starts: &[u16],
    old: &[u8],
    new: &[u8],
    kept: usize,
)
    requires { ImageInput image.old pool.now starts.now new.now × StepsFit pool.now starts.now old.now new.now kept (length steps.old) }
    ensures { IsWritten pool.now starts.now old.now new.now image.old steps.old image.new steps.new }
{
    write_used(image, pool, starts, new);
    write_steps(steps, pool, starts, old, new, kept);
}

// Writes the image of a table's set over that of a smaller one, and the steps to its log from the old one, beside which nothing is placed
// yet.
fn update(
    image: &mut [u8],
    steps: &mut [u8],
    pool: &[u8],
    starts: &[u16],
    begun: LogOrder,
) -> Counts
    requires { Updatable image.old (length steps.old) pool.now starts.now begun }
    ensures { Updates steps.old pool.now starts.now begun (accepted_by result image.new steps.new) }
{
    let order = order_table(pool, starts, begun);
    let old = order.old;
    let places = order.places;
    write_change(
        image,
        steps,
        pool,
        starts,
        &old[..order.old_count],
        &places[..order.count],
        order.kept,
    );
    Counts {
        undos: order.undos(),
        executions: order.executions(),
    }
}

// Takes a message in whose sequence is new, at its place among the station's sequences. The pool begins with the image; the message
// is put behind it.
pub fn accept(
    image: &mut [u8],
    message: &[u8],
    steps: &mut [u8],
    pool: &mut [u8],
    station: Station,
    p: usize,
) -> Counts
    requires { Acceptable image.old message.now (length steps.old) pool.old station p }
    ensures { accepted_by result image.new steps.new ≡ accepted_answer (state_in image.old) (add message.now (state_in image.old)) steps.old }
{
    copy_at(pool, IMAGE_SIZE, message, message.len());
    let next = station.table.insert(p, IMAGE_SIZE as u16);
    let starts = next.starts;
    let places = station.places;
    let old = shift_places(places, station.logged, p);
    let begun = LogOrder::begin(old, station.logged);
    update(image, steps, pool, &starts[..next.count], begun)
}
