// Audit lists: read into a column of edges, and written from it.
ghost use Rattle.std.specs.Prelude.{◌≡◌, length};
ghost use Rattle.base.specs.Answer.{given, room_in, after, refusal_of, number_given};
ghost use Rattle.list_text.specs.Text.{read_list, write_list};

use base::give_out;
use list_text::{read_list, write_list};

// Reads a list for so many vertices, and gives how many edges it has.
#[unsafe(no_mangle)]
pub extern "C" fn thinning_read_list(
    vertices: usize,
    text: &[u8],
    edges: &mut [u16],
    count: &mut usize,
) -> u32
    ensures number { result ≡ refusal_of
        (given (room_in edges.old) (read_list vertices text.now)) }
    ensures edges { edges.new ≡ after (read_list vertices text.now) edges.old }
    ensures count { count.new ≡ number_given length
        (given (room_in edges.old) (read_list vertices text.now)) count.old }
{
    give_out(read_list(vertices, text, edges), count)
}

// Writes a list for so many vertices, and gives its length.
#[unsafe(no_mangle)]
pub extern "C" fn thinning_write_list(
    vertices: usize,
    edges: &[u16],
    text: &mut [u8],
    written: &mut usize,
) -> u32
    ensures number { result ≡ refusal_of
        (given (room_in text.old) (write_list vertices edges.now)) }
    ensures text { text.new ≡ after (write_list vertices edges.now) text.old }
    ensures written { written.new ≡ number_given length
        (given (room_in text.old) (write_list vertices edges.now)) written.old }
{
    give_out(write_list(vertices, edges, text), written)
}
