// The log's message that starts at an offset, looked for among the offsets of all of them.
#![tactic(auto)]

ghost use Rattle.read_search.specs.Finding.{Searchable, Finds};

use buffer_reads::get_u16;
use layout::LENGTH_AT;

// Looks for a message of the log that starts at an offset, among the offsets of all of them; answers its size.
#[tactic(auto, using(crate::proofs::Here::here_inside, crate::proofs::Here::here_bytes))]
pub fn find_message(image: &[u8], offsets: &[u16], offset: usize) -> Option<usize>
    requires { Searchable image.now offsets.now }
    ensures { Finds image.now offset result }
{
    for at in offsets {
        let at = *at as usize;
        if at == offset {
            return Some(get_u16(image, at + LENGTH_AT) as usize);
        }
    }
    None
}
