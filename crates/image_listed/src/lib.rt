// A buffer with its table, and its log as it lists it: checked against the log of the set, rewritten, and compared. Nothing is judged here.
#![tactic(auto)]

pub mod comparing;

ghost use Rattle.std.specs.Prelude.{◌≡◌, length};
ghost use Rattle.model.specs.Layout.{image_size};
ghost use Rattle.set_table.specs.Table.{starts_of, set_in};
ghost use Rattle.image_table.specs.TableReading.{IsTable};
ghost use Rattle.image_header.specs.Pieces.{UsedWritten};
ghost use Rattle.log_check.specs.Checking.{ChecksLog};
ghost use Rattle.image_listed.specs.Listed.{FrontOffsets, ListsLog, Rewritable, places_in};

use buffer_reads::get_u16;
use image::write_used;
use image_log::read_places;
use layout::{CAPACITY, LOG_COUNT_AT};
use log_check::check_log;
use log_key::KEYS;
use log_prepared::prepare;
use refusals::Refusal;
use set_needs::rows::ROWS;
use set_table::Table;

// A buffer whose messages were read: where they lie, and of its log's messages the places in the table and the offsets. Whether it is an image
// `image_judged` says.
#[derive(Clone, Copy)]
pub struct Station {
    pub table: Table,
    pub places: [u8; CAPACITY],
    pub offsets: [u16; CAPACITY],
    pub logged: usize,
}

// A buffer whose messages were read, with its log as it lists it. Nothing is judged yet.
pub fn list(b: &[u8], offsets: [u16; CAPACITY], table: Table) -> Station
    requires { (length b.now ≡ image_size) × FrontOffsets b.now offsets × IsTable b.now table }
    ensures { ListsLog b.now table result }
{
    let starts = table.starts;
    let count = table.count;
    let logged = get_u16(b, LOG_COUNT_AT) as usize;
    let places = read_places(b, &starts[..count], &offsets[..logged]);
    Station {
        table,
        places,
        offsets,
        logged,
    }
}

// Whether the listed log is the log of the set.
pub fn check_listed(b: &[u8], listed: Station) -> Result<(), Refusal>
    requires { (length b.now ≡ image_size) × IsTable b.now listed.table × ListsLog b.now listed.table listed }
    ensures { ChecksLog (set_in b.now (starts_of listed.table)) (places_in listed) result }
{
    let table = listed.table;
    let starts = table.starts;
    let count = table.count;
    let places = listed.places;
    let logged = listed.logged;
    let mut rows = [0u8; ROWS];
    let mut counts = [0u8; CAPACITY];
    let mut keys = [0u64; KEYS];
    prepare(&mut rows, &mut counts, &mut keys, b, &starts[..count]);
    check_log(
        b,
        &starts[..count],
        &rows,
        &counts,
        &keys,
        &places[..logged],
    )
}

// Writes the used bytes of the image of a set whose log is listed, and answers how many they are.
pub fn rewrite(out: &mut [u8], b: &[u8], listed: Station) -> usize
    requires { Rewritable out.old b.now listed }
    ensures { UsedWritten (set_in b.now (starts_of listed.table)) out.old out.new result }
{
    let table = listed.table;
    let starts = table.starts;
    let count = table.count;
    let places = listed.places;
    let logged = listed.logged;
    write_used(out, b, &starts[..count], &places[..logged])
}
