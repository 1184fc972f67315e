// An image read and judged: code 2.
ghost use Rattle.std.specs.Prelude.{◌≡◌, length};
ghost use Rattle.model.specs.Layout.{image_size};
ghost use Rattle.image_table.specs.TableReading.{IsTable};
ghost use Rattle.image_listed.specs.Listed.{FrontOffsets};
ghost use Rattle.image_judged.specs.Judging.{Blank, Judges, Copies};

use image_listed::comparing::equals_copy;
use image_listed::{Station, check_listed, list, rewrite};
use image_origin::origin::check_origin;
use image_table::read_table;
use image_walk::walk_messages;
use layout::{CAPACITY, IMAGE_SIZE};
use refusals::Refusal;
use set_table::Table;

// Judges a buffer whose messages were read: its log has to be that of their set, and it has to be their image, byte for byte. That
// image is written into `copy`, which is all zeros.
fn judge(
    b: &[u8],
    offsets: [u16; CAPACITY],
    table: Table,
    copy: &mut [u8],
) -> Result<Station, Refusal>
    requires { (length b.now ≡ image_size) × FrontOffsets b.now offsets × IsTable b.now table × Blank copy.old }
    ensures { Judges b.now result × Copies b.now copy.new result }
{
    let listed = list(b, offsets, table);
    check_listed(b, listed)?;
    let used = rewrite(copy, b, listed);
    let differs = !equals_copy(&copy[..IMAGE_SIZE], used, b);
    if differs {
        return Err(Refusal::NoImage);
    }
    Ok(listed)
}

// Reads a buffer of an image's size and judges it: first what its log starts from, which says where its messages are. Where it is an
// image, `copy` begins with it afterwards.
pub fn read_and_copy(b: &[u8], copy: &mut [u8]) -> Result<Station, Refusal>
    requires { (length b.now ≡ image_size) × Blank copy.old }
    ensures { Judges b.now result × Copies b.now copy.new result }
{
    check_origin(b)?;
    let walk = walk_messages(b)?;
    let offsets = walk.offsets;
    let table = read_table(b, &offsets[..walk.count])?;
    judge(b, offsets, table, copy)
}

// Reads a buffer of an image's size and judges it.
pub fn read_station(b: &[u8]) -> Result<Station, Refusal>
    requires { length b.now ≡ image_size }
    ensures { Judges b.now result }
{
    let mut copy = [0u8; IMAGE_SIZE];
    read_and_copy(b, &mut copy)
}
