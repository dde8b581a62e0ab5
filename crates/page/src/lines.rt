// The lines of a page: numbers in columns, right-aligned.
ghost use Rattle.std.specs.Prelude.{◌≡◌, ◌≤◌, length};
ghost use Rattle.base.specs.Answer.{over};
ghost use Rattle.base.specs.Limits.{edge_limit};
ghost use Rattle.kept_text.specs.Text.{kept_edges};
ghost use Rattle.page.specs.Page.{edge_line, edge_lines, sum_line, page_length};
ghost use Rattle.page.specs.Room.{ColumnRoom, column, LineRoom, SumRoom, LinesRoom};

use base::EDGE_LIMIT;
use decimal::{put_aligned, put_spaces};
use frame::LINE_FEED;
use graph::Network;
use kept_text::count_kept;

// Where the columns end: an edge's number, its lower end, its higher end, its cost.
const NUMBER_END: usize = 6;

const LOWER_END: usize = 12;

const HIGHER_END: usize = 18;

const COST_END: usize = 36;

// How many bytes a line has, with its line feed.
const PAGE_LINE: usize = COST_END + 1;

// How many bytes the page of the listed edges has, with its last line.
pub fn page_length(listed: &[bool], edges: usize) -> usize
    requires { (edges ≤ length listed.now) × (edges ≤ edge_limit) }
    ensures { result ≡ page_length (length (kept_edges edges listed.now)) }
{
    (count_kept(listed, edges) + 1) * PAGE_LINE
}

// Prints a number in the column of `line` from one place to another.
fn put_column(line: &mut [u8], start: usize, end: usize, number: i64)
    requires { ColumnRoom line.old start end number }
    ensures { line.new ≡ column start end number line.old }
{
    put_aligned(&mut line[start..end], number);
}

// Writes the line of an edge to the start of `line`, and answers its length.
fn put_edge(line: &mut [u8], edge: usize, low: u8, high: u8, cost: i64) -> usize
    requires { LineRoom line.old edge cost }
    ensures { (result ≡ length (edge_line edge low high cost)) ×
        (line.new ≡ over (edge_line edge low high cost) line.old) }
{
    put_column(line, 0, NUMBER_END, edge as i64);
    put_column(line, NUMBER_END, LOWER_END, low as i64);
    put_column(line, LOWER_END, HIGHER_END, high as i64);
    put_column(line, HIGHER_END, COST_END, cost);
    line[COST_END] = LINE_FEED;
    PAGE_LINE
}

// Writes the last line to the start of `line`.
pub fn put_sum(line: &mut [u8], sum: i64)
    requires { SumRoom line.old sum }
    ensures { line.new ≡ over (sum_line sum) line.old }
{
    put_spaces(&mut line[..HIGHER_END]);
    put_column(line, HIGHER_END, COST_END, sum);
    line[COST_END] = LINE_FEED;
}

// Writes the lines of the listed edges to the start of `page`, and answers how many bytes they have.
pub fn put_lines(network: Network, listed: [bool; EDGE_LIMIT], page: &mut [u8]) -> usize
    requires { LinesRoom network listed page.old }
    ensures { (result ≡ length (edge_lines network (kept_edges network.edges listed))) ×
        (page.new ≡ over (edge_lines network (kept_edges network.edges listed)) page.old) }
{
    let mut at = 0;
    for edge in 0..network.edges {
        if listed[edge] {
            let low = network.low[edge];
            let high = network.high[edge];
            let cost = network.cost[edge];
            at += put_edge(&mut page[at..], edge, low, high, cost);
        }
    }
    at
}
