// Chain texts: the steps and the ending of a chain, read and written.
ghost use Rattle.std.specs.Prelude.{◌≡◌, ◌≤◌, length, drop};
ghost use Rattle.base.specs.Answer.{told, over, reply_of, after};
ghost use Rattle.base.specs.Limits.{step_limit};
ghost use Rattle.chain_text.specs.Columns.{columns};
ghost use Rattle.chain_text.specs.Text.{steps_in, ending_in, read_chain, ReadInto, steps_of, chain_text, chain_length};
ghost use Rattle.chain_text.specs.Text.{write_chain};
ghost use Rattle.chain_text.specs.Working.{Room, StepsRead, ChainRead, StepThere, step_at};

use base::{FEWEST_VERTICES, Refusal, STEP_LIMIT, copy, vertices_ok};
use frame::{Dropped, Kind, Step, length_of, put_line, read_line};

// What a chain text says, but for its steps: how many they are, and the edge that the ending drops.
#[derive(Clone, Copy, Debug, PartialEq, Eq)]
pub struct ReadChain {
    pub steps: usize,
    pub dropped: u16,
}

// Reads so many steps from the start of a text into columns. After a refusal they may hold anything.
fn read_steps(
    text: &[u8],
    steps: usize,
    v: &mut [u16],
    x: &mut [u16],
    y: &mut [u16],
    z: &mut [u16],
    cost: &mut [i64],
) -> Result<(), Refusal>
    requires { Room steps (columns v.old x.old y.old z.old cost.old) }
    ensures { StepsRead (steps_in steps text.now)
        (columns v.old x.old y.old z.old cost.old)
        (columns v.new x.new y.new z.new cost.new) result }
{
    let mut at = 0;
    for i in 0..steps {
        let Ok((f, next)) = read_line(text, at, Kind::Step) else {
            return Err(Refusal::Form);
        };
        let step = Step::of(f);
        v[i] = step.v as u16;
        x[i] = step.x as u16;
        y[i] = step.y as u16;
        z[i] = step.z as u16;
        cost[i] = step.cost;
        at = next;
    }
    Ok(())
}

// Reads an ending at a place of a text, with nothing behind it: the edge that it drops.
fn read_ending(text: &[u8], at: usize) -> Result<u16, Refusal>
    ensures { told result ≡ ending_in (drop at text.now) }
{
    let Ok((f, end)) = read_line(text, at, Kind::Dropped) else {
        return Err(Refusal::Form);
    };
    if end < text.len() {
        return Err(Refusal::Form);
    }
    Ok(Dropped::of(f).edge as u16)
}

// Reads a chain text into columns that have room for every chain. After a refusal they may hold anything.
fn parse_chain(
    vertices: usize,
    text: &[u8],
    v: &mut [u16],
    x: &mut [u16],
    y: &mut [u16],
    z: &mut [u16],
    cost: &mut [i64],
) -> Result<ReadChain, Refusal>
    requires { Room step_limit (columns v.old x.old y.old z.old cost.old) }
    ensures { ChainRead (read_chain vertices text.now)
        (columns v.old x.old y.old z.old cost.old)
        (columns v.new x.new y.new z.new cost.new) result }
{
    if !vertices_ok(vertices) {
        return Err(Refusal::Vertices);
    }
    let steps = vertices - FEWEST_VERTICES;
    read_steps(text, steps, v, x, y, z, cost)?;
    let dropped = read_ending(text, steps * length_of(Kind::Step))?;
    Ok(ReadChain { steps, dropped })
}

// Reads a chain text for so many vertices into columns, which are apart as C lends them: all of them are written, or
// none.
pub fn read_chain(
    vertices: usize,
    text: &[u8],
    v: &mut [u16],
    x: &mut [u16],
    y: &mut [u16],
    z: &mut [u16],
    cost: &mut [i64],
) -> Result<ReadChain, Refusal>
    ensures { ReadInto vertices text.now
        (columns v.old x.old y.old z.old cost.old) result
        (columns v.new x.new y.new z.new cost.new) }
{
    let mut v_read = [0u16; STEP_LIMIT];
    let mut x_read = [0u16; STEP_LIMIT];
    let mut y_read = [0u16; STEP_LIMIT];
    let mut z_read = [0u16; STEP_LIMIT];
    let mut cost_read = [0i64; STEP_LIMIT];
    let read = parse_chain(
        vertices,
        text,
        &mut v_read,
        &mut x_read,
        &mut y_read,
        &mut z_read,
        &mut cost_read,
    )?;
    let steps = read.steps;
    if v.len() < steps
        || x.len() < steps
        || y.len() < steps
        || z.len() < steps
        || cost.len() < steps
    {
        return Err(Refusal::Short);
    }
    copy(&v_read, steps, v);
    copy(&x_read, steps, x);
    copy(&y_read, steps, y);
    copy(&z_read, steps, z);
    copy(&cost_read, steps, cost);
    Ok(read)
}

// How many bytes a chain text with so many steps has.
pub fn chain_length(steps: usize) -> usize
    requires { steps ≤ step_limit }
    ensures { result ≡ chain_length steps }
{
    steps * length_of(Kind::Step) + length_of(Kind::Dropped)
}

// The step at a place of columns.
fn step_at(v: &[u16], x: &[u16], y: &[u16], z: &[u16], cost: &[i64], place: usize) -> Step
    requires { StepThere (columns v.now x.now y.now z.now cost.now) place }
    ensures { result ≡ step_at
        (columns v.now x.now y.now z.now cost.now) place }
{
    Step {
        v: v[place] as u64,
        x: x[place] as u64,
        y: y[place] as u64,
        z: z[place] as u64,
        cost: cost[place],
    }
}

// Writes the steps of columns that are equally long, and the ending, to the start of `text`. Answers how many bytes
// they have.
pub fn put_chain(
    v: &[u16],
    x: &[u16],
    y: &[u16],
    z: &[u16],
    cost: &[i64],
    dropped: u16,
    text: &mut [u8],
) -> usize
    requires { (length x.now ≡ length v.now) × (length y.now ≡ length v.now) ×
        (length z.now ≡ length v.now) × (length cost.now ≡ length v.now) ×
        (length (chain_text (steps_of v.now x.now y.now z.now cost.now) dropped) ≤ length text.old) }
    ensures { (result ≡ length (chain_text (steps_of
        v.now x.now y.now z.now cost.now) dropped)) ×
        (text.new ≡ over (chain_text (steps_of
        v.now x.now y.now z.now cost.now) dropped)
        text.old) }
{
    let mut at = 0;
    for i in 0..v.len() {
        let step = step_at(v, x, y, z, cost, i);
        at += put_line(&mut text[at..], Kind::Step, step.fields());
    }
    let ending = Dropped {
        edge: dropped as u64,
    };
    at + put_line(&mut text[at..], Kind::Dropped, ending.fields())
}

// Writes a chain text for so many vertices.
pub fn write_chain(
    vertices: usize,
    v: &[u16],
    x: &[u16],
    y: &[u16],
    z: &[u16],
    cost: &[i64],
    dropped: u16,
    text: &mut [u8],
) -> Result<usize, Refusal>
    ensures { (told result ≡ reply_of (write_chain vertices
        (columns v.now x.now y.now z.now cost.now) dropped)
        text.old) ×
        (text.new ≡ after (write_chain vertices
        (columns v.now x.now y.now z.now cost.now) dropped)
        text.old) }
{
    if !vertices_ok(vertices) {
        return Err(Refusal::Vertices);
    }
    let steps = vertices - FEWEST_VERTICES;
    if v.len() != steps
        || x.len() != steps
        || y.len() != steps
        || z.len() != steps
        || cost.len() != steps
    {
        return Err(Refusal::Form);
    }
    if text.len() < chain_length(steps) {
        return Err(Refusal::Short);
    }
    Ok(put_chain(v, x, y, z, cost, dropped, text))
}
