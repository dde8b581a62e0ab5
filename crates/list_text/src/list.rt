// Audit lists: a text of rising edge numbers, read and written.
ghost use Rattle.std.specs.Prelude.{◌≡◌, map, ◌≤◌, length};
ghost use Rattle.base.specs.Answer.{told, refusal_of, over, reply_of, after};
ghost use Rattle.base.specs.Limits.{vertex_limit, edge_limit};
ghost use Rattle.frame.specs.Frames.{listed};
ghost use Rattle.list_text.specs.Text.{frame_of, may_follow, list_in, read_list, ListRead, list_text, write_list};

use base::{EDGE_LIMIT, Refusal, copy, vertices_ok};
use frame::{Kept, Kind, length_of, put_line, read_line};

// Whether an edge may follow in a list: not below the least that may, and one of the network's.
fn may_follow(edge: u64, least: u64, vertices: usize) -> bool
    requires { vertices ≤ vertex_limit }
    ensures { result ≡ may_follow vertices least edge }
{
    least <= edge && edge < 2 * (vertices as u64)
}

// Reads a list into a column that has room for every list. After a refusal it may hold anything.
fn parse_list(vertices: usize, text: &[u8], edges: &mut [u16]) -> Result<usize, Refusal>
    requires { edge_limit ≤ length edges.old }
    ensures { ListRead (read_list vertices text.now) edges.old edges.new result }
{
    if !vertices_ok(vertices) {
        return Err(Refusal::Vertices);
    }
    let mut at = 0;
    let mut least: u64 = 0;
    let mut count = 0;
    while at < text.len() {
        let Ok((f, next)) = read_line(text, at, Kind::Kept) else {
            return Err(Refusal::Form);
        };
        let edge = Kept::of(f).edge;
        if !may_follow(edge, least, vertices) {
            return Err(Refusal::Unlisted);
        }
        edges[count] = edge as u16;
        least = edge + 1;
        count += 1;
        at = next;
    }
    Ok(count)
}

// Reads a list for so many vertices into a column: all of it is written, or nothing.
pub fn read_list(vertices: usize, text: &[u8], edges: &mut [u16]) -> Result<usize, Refusal>
    ensures { (told result ≡ reply_of (read_list vertices text.now) edges.old) ×
        (edges.new ≡ after (read_list vertices text.now) edges.old) }
{
    let mut edges_read = [0u16; EDGE_LIMIT];
    let count = parse_list(vertices, text, &mut edges_read)?;
    if edges.len() < count {
        return Err(Refusal::Short);
    }
    copy(&edges_read, count, edges);
    Ok(count)
}

// Checks edges that are to be written.
fn check_edges(vertices: usize, edges: &[u16]) -> Result<(), Refusal>
    ensures { refusal_of (told result) ≡ refusal_of (list_in vertices (listed (map frame_of edges.now))) }
{
    if !vertices_ok(vertices) {
        return Err(Refusal::Vertices);
    }
    let mut least: u64 = 0;
    for &number in edges {
        let edge = number as u64;
        if !may_follow(edge, least, vertices) {
            return Err(Refusal::Unlisted);
        }
        least = edge + 1;
    }
    Ok(())
}

// Writes the lines of edges to the start of `text`, and answers how many bytes they have.
fn put_list(edges: &[u16], text: &mut [u8]) -> usize
    requires { length (list_text edges.now) ≤ length text.old }
    ensures { (result ≡ length (list_text edges.now)) ×
        (text.new ≡ over (list_text edges.now) text.old) }
{
    let mut at = 0;
    for &edge in edges {
        let line = Kept { edge: edge as u64 };
        at += put_line(&mut text[at..], Kind::Kept, line.fields());
    }
    at
}

// Writes a list for so many vertices.
pub fn write_list(vertices: usize, edges: &[u16], text: &mut [u8]) -> Result<usize, Refusal>
    ensures { (told result ≡ reply_of (write_list vertices edges.now) text.old) ×
        (text.new ≡ after (write_list vertices edges.now) text.old) }
{
    check_edges(vertices, edges)?;
    if text.len() < edges.len() * length_of(Kind::Kept) {
        return Err(Refusal::Short);
    }
    Ok(put_list(edges, text))
}
