// The header of a message, from its value to its 40 bytes.
ghost use Rattle.std.specs.Prelude.{◌≡◌, ◌<◌, ◌≤◌, length};
ghost use Rattle.model.specs.Layout.{header_size};
ghost use Rattle.image_header.specs.Pieces.{pasted};
ghost use Rattle.message_sequence.specs.Sequence.{sequence_number};
ghost use Rattle.compose_header.specs.Numbers.{FewParts};
ghost use Rattle.compose_writing.specs.Writing.{header_bytes, header_for};

use compose_header::{put_counts, put_fields, put_offsets};
use layout::SEQUENCE_AT;
use message_header::header::Header;
use message_sequence::put_sequence;

// Writes the four parts of a header, with the numbers of byte 1, block and priority.
fn put_parts(message: &mut [u8], h: Header, flag: u32, block: u32, priority: u32)
    requires { (header_size ≤ length message.old) × (flag < 256) × FewParts h.dependencies h.commands }
    ensures { message.new ≡ pasted message.old 0 (header_bytes flag (sequence_number h.sequence) h.group block priority h.dependencies h.commands) }
{
    let s = h.sequence;
    put_counts(message, flag, h.dependencies, h.commands);
    put_offsets(message, h.dependencies, h.commands);
    put_sequence(message, SEQUENCE_AT, s);
    put_fields(message, h.group, block, priority);
}

// Writes a header: byte 1, block and priority are zero where it has no priority.
pub fn put_message_header(message: &mut [u8], h: Header)
    requires { (header_size ≤ length message.old) × FewParts h.dependencies h.commands }
    ensures { message.new ≡ pasted message.old 0 (header_for h) }
{
    let given = h.priority;
    match given {
        None => put_parts(message, h, 0, 0, 0),
        Some(p) => put_parts(message, h, 1, p.block, p.priority),
    }
}
