// Network texts: read into columns, and written from them.
ghost use Rattle.std.specs.Prelude.{◌≡◌, ◌*◌, ◌≤◌, length};
ghost use Rattle.base.specs.Answer.{told, over, reply_of, after, refusal_of};
ghost use Rattle.base.specs.Limits.{vertex_limit};
ghost use Rattle.network_text.specs.Text.{checked, read_network, read_given, in_columns, edges_in, meant, Valid};
ghost use Rattle.network_text.specs.Text.{edges_text, network_text, network_length, write_network};
ghost use Rattle.network_text.specs.Columns.{Columns, NetworkRead, ReadInto, EdgeThere, edge_at, Edged};

use base::{EDGE_LIMIT, Refusal, copy};
use frame::{Edge, Head, Kind, length_of, put_line};
use network_frames::{check_edge, check_head, read_edge, read_head};

// What the head of a network text says. Its edges are read into columns.
#[derive(Clone, Copy, Debug, PartialEq, Eq)]
pub struct ReadNetwork {
    pub vertices: usize,
    pub reserved: usize,
}

// Reads a network text into columns that have room for any network. After a refusal they may hold anything.
fn read_columns(
    text: &[u8],
    low: &mut [u16],
    high: &mut [u16],
    cost: &mut [i64],
) -> Result<ReadNetwork, Refusal>
    requires { Columns vertex_limit low.old high.old cost.old }
    ensures { NetworkRead (read_network text.now)
        low.old high.old cost.old
        low.new high.new cost.new result }
{
    let (head, first) = read_head(text)?;
    let vertices = head.vertices as usize;
    let reserved = head.reserved as usize;
    let mut at = first;
    for i in 0..2 * vertices {
        let (edge, next) = read_edge(text, at, vertices, i)?;
        low[i] = edge.lower as u16;
        high[i] = edge.higher as u16;
        cost[i] = edge.cost;
        at = next;
    }
    if at < text.len() {
        return Err(Refusal::Form);
    }
    Ok(ReadNetwork { vertices, reserved })
}

// Reads a network text into buffers, which are apart as C lends them: the ends and the costs of its edges, by their
// numbers.
pub fn read_network(
    text: &[u8],
    low: &mut [u16],
    high: &mut [u16],
    cost: &mut [i64],
) -> Result<ReadNetwork, Refusal>
    ensures { ReadInto (read_given text.now low.old high.old cost.old)
        low.old high.old cost.old
        low.new high.new cost.new result }
{
    let mut lows = [0u16; EDGE_LIMIT];
    let mut highs = [0u16; EDGE_LIMIT];
    let mut costs = [0i64; EDGE_LIMIT];
    let read = read_columns(text, &mut lows, &mut highs, &mut costs)?;
    let edges = 2 * read.vertices;
    if low.len() < edges || high.len() < edges || cost.len() < edges {
        return Err(Refusal::Short);
    }
    copy(&lows, edges, low);
    copy(&highs, edges, high);
    copy(&costs, edges, cost);
    Ok(read)
}

// The edge at a place of columns.
fn edge_at(low: &[u16], high: &[u16], cost: &[i64], place: usize) -> Edge
    requires { EdgeThere low.now high.now cost.now place }
    ensures { result ≡ edge_at low.now high.now cost.now place }
{
    Edge {
        number: place as u64,
        lower: low[place] as u64,
        higher: high[place] as u64,
        cost: cost[place],
    }
}

// Refuses the edges of columns for the first that is missing or is no edge of a network with so many vertices, and
// for any that are left over.
fn check_edges(vertices: usize, low: &[u16], high: &[u16], cost: &[i64]) -> Result<(), Refusal>
    requires { vertices ≤ vertex_limit }
    ensures { refusal_of (told result) ≡ refusal_of (checked vertices 0
        (in_columns (2 * vertices) 0 low.now high.now cost.now)) }
{
    let edges = 2 * vertices;
    for i in 0..edges {
        if low.len() <= i || high.len() <= i || cost.len() <= i {
            return Err(Refusal::Form);
        }
        check_edge(vertices, i, edge_at(low, high, cost, i))?;
    }
    if edges < low.len() || edges < high.len() || edges < cost.len() {
        return Err(Refusal::Form);
    }
    Ok(())
}

// Writes the frames of the edges of columns to the start of `out`, each directly behind the one before it.
fn put_edges(low: &[u16], high: &[u16], cost: &[i64], edges: usize, out: &mut [u8])
    requires { Edged edges low.now high.now cost.now out.old }
    ensures { out.new ≡
        over (edges_text (edges_in 0 low.now high.now cost.now)) out.old }
{
    let mut at = 0;
    for place in 0..edges {
        let edge = edge_at(low, high, cost, place);
        at += put_line(&mut out[at..], Kind::Edge, edge.fields());
    }
}

// Writes the text of a network to the start of `text`: its head, and its edges behind it.
fn put_network(
    vertices: usize,
    reserved: usize,
    low: &[u16],
    high: &[u16],
    cost: &[i64],
    text: &mut [u8],
)
    requires { Valid (meant vertices reserved low.now high.now cost.now) ×
        (network_length (2 * vertices) ≤ length text.old) }
    ensures { text.new ≡
        over (network_text vertices reserved (edges_in 0 low.now high.now cost.now))
        text.old }
{
    let head = Head {
        vertices: vertices as u64,
        reserved: reserved as u64,
    };
    let at = put_line(text, Kind::Head, head.fields());
    put_edges(low, high, cost, 2 * vertices, &mut text[at..]);
}

// Writes the network text of a meaning: the number of vertices, the reserved edge, and the ends and costs of the edges.
pub fn write_network(
    vertices: usize,
    reserved: usize,
    low: &[u16],
    high: &[u16],
    cost: &[i64],
    text: &mut [u8],
) -> Result<usize, Refusal>
    ensures { (told result ≡ reply_of
        (write_network (meant vertices reserved low.now high.now cost.now))
        text.old) ×
        (text.new ≡ after
        (write_network (meant vertices reserved low.now high.now cost.now))
        text.old) }
{
    check_head(vertices, reserved)?;
    check_edges(vertices, low, high, cost)?;
    let length = length_of(Kind::Head) + 2 * vertices * length_of(Kind::Edge);
    if text.len() < length {
        return Err(Refusal::Short);
    }
    put_network(vertices, reserved, low, high, cost, text);
    Ok(length)
}
