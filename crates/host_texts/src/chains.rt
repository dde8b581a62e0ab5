// Chain texts: read into columns, and written from them.
ghost use Rattle.std.specs.Prelude.{◌≡◌, length};
ghost use Rattle.base.specs.Answer.{given, filled, room_in, after, refusal_of, number_given};
ghost use Rattle.chain_text.specs.Columns.{columns};
ghost use Rattle.chain_text.specs.Text.{in_columns, read_given, write_chain};

use base::give_out;
use chain_text::{read_chain, write_chain};

// Reads a chain text for so many vertices into columns, and gives the edge that its ending drops.
#[unsafe(no_mangle)]
pub extern "C" fn thinning_read_chain(
    vertices: usize,
    text: &[u8],
    v: &mut [u16],
    x: &mut [u16],
    y: &mut [u16],
    z: &mut [u16],
    cost: &mut [i64],
    dropped: &mut u16,
) -> u32
    ensures number { result ≡ refusal_of (read_given vertices text.now
        (columns v.old x.old y.old z.old cost.old)) }
    ensures v { v.new ≡ filled (λ m. (in_columns m).v) (read_given vertices text.now
        (columns v.old x.old y.old z.old cost.old))
        v.old }
    ensures x { x.new ≡ filled (λ m. (in_columns m).x) (read_given vertices text.now
        (columns v.old x.old y.old z.old cost.old))
        x.old }
    ensures y { y.new ≡ filled (λ m. (in_columns m).y) (read_given vertices text.now
        (columns v.old x.old y.old z.old cost.old))
        y.old }
    ensures z { z.new ≡ filled (λ m. (in_columns m).z) (read_given vertices text.now
        (columns v.old x.old y.old z.old cost.old))
        z.old }
    ensures cost { cost.new ≡ filled (λ m. (in_columns m).cost) (read_given vertices text.now
        (columns v.old x.old y.old z.old cost.old))
        cost.old }
    ensures dropped { dropped.new ≡ number_given (λ m. m.dropped) (read_given vertices text.now
        (columns v.old x.old y.old z.old cost.old))
        dropped.old }
{
    match read_chain(vertices, text, v, x, y, z, cost) {
        Ok(read) => {
            *dropped = read.dropped;
            0
        }
        Err(refusal) => refusal.number() as u32,
    }
}

// Writes the chain text of columns for so many vertices, and gives its length.
#[unsafe(no_mangle)]
pub extern "C" fn thinning_write_chain(
    vertices: usize,
    v: &[u16],
    x: &[u16],
    y: &[u16],
    z: &[u16],
    cost: &[i64],
    dropped: u16,
    text: &mut [u8],
    written: &mut usize,
) -> u32
    ensures number { result ≡ refusal_of (given (room_in text.old) (write_chain vertices
        (columns v.now x.now y.now z.now cost.now) dropped)) }
    ensures text { text.new ≡ after (write_chain vertices
        (columns v.now x.now y.now z.now cost.now) dropped)
        text.old }
    ensures written { written.new ≡ number_given length (given (room_in text.old)
        (write_chain vertices
        (columns v.now x.now y.now z.now cost.now) dropped))
        written.old }
{
    give_out(
        write_chain(vertices, v, x, y, z, cost, dropped, text),
        written,
    )
}
