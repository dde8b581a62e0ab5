// Network texts: read into columns, and written from them.
ghost use Rattle.std.specs.Prelude.{◌≡◌, length};
ghost use Rattle.base.specs.Answer.{given, filled, room_in, after, refusal_of, number_given};
ghost use Rattle.network_text.specs.Text.{read_given, meant, write_network};

use base::give_out;
use network_text::{read_network, write_network};

// Reads a network text into columns, and gives its number of vertices and its reserved edge.
#[unsafe(no_mangle)]
pub extern "C" fn thinning_read_network(
    text: &[u8],
    low: &mut [u16],
    high: &mut [u16],
    cost: &mut [i64],
    vertices: &mut usize,
    reserved: &mut usize,
) -> u32
    ensures number { result ≡ refusal_of
        (read_given text.now low.old high.old cost.old) }
    ensures low { low.new ≡ filled (λ m. m.low)
        (read_given text.now low.old high.old cost.old)
        low.old }
    ensures high { high.new ≡ filled (λ m. m.high)
        (read_given text.now low.old high.old cost.old)
        high.old }
    ensures cost { cost.new ≡ filled (λ m. m.cost)
        (read_given text.now low.old high.old cost.old)
        cost.old }
    ensures vertices { vertices.new ≡ number_given (λ m. m.vertices)
        (read_given text.now low.old high.old cost.old)
        vertices.old }
    ensures reserved { reserved.new ≡ number_given (λ m. m.reserved)
        (read_given text.now low.old high.old cost.old)
        reserved.old }
{
    match read_network(text, low, high, cost) {
        Ok(read) => {
            *vertices = read.vertices;
            *reserved = read.reserved;
            0
        }
        Err(refusal) => refusal.number() as u32,
    }
}

// Writes the network text of columns, and gives its length.
#[unsafe(no_mangle)]
pub extern "C" fn thinning_write_network(
    vertices: usize,
    reserved: usize,
    low: &[u16],
    high: &[u16],
    cost: &[i64],
    text: &mut [u8],
    written: &mut usize,
) -> u32
    ensures number { result ≡ refusal_of (given (room_in text.old)
        (write_network (meant vertices reserved low.now high.now cost.now))) }
    ensures text { text.new ≡ after
        (write_network (meant vertices reserved low.now high.now cost.now))
        text.old }
    ensures written { written.new ≡ number_given length (given (room_in text.old)
        (write_network (meant vertices reserved low.now high.now cost.now)))
        written.old }
{
    give_out(
        write_network(vertices, reserved, low, high, cost, text),
        written,
    )
}
