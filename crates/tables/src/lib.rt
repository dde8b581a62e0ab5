// The services over a solver's tables: check a table, plan it, write the network text that it stands for.
#![tactic(auto)]

ghost use Rattle.std.specs.Prelude.{◌≡◌};
ghost use Rattle.base.specs.Answer.{told, reply_of, after};
ghost use Rattle.loading.specs.Loading.{loaded_answer};
ghost use Rattle.claim.specs.Services.{acceptance_of};
ghost use Rattle.tables.specs.Services.{load_table, accept_table, table_plan_reply, table_planned_chain};
ghost use Rattle.tables.specs.Services.{table_planned_kept, table_network};

use base::Refusal;
use claim::Planned;
use loading::{Loaded, load_columns};
use network_text::{ReadNetwork, write_network};
use table_text::{LAID_LIMIT, read_table};
use thinning::{check_loaded, plan_loaded};

// Reads a table text into the state: the text's first refusal, or the network that it stands for.
fn load_table(text: &[u8]) -> Result<Loaded, Refusal>
    ensures { loaded_answer result ≡ load_table text.now }
{
    let mut low = [0u16; LAID_LIMIT];
    let mut high = [0u16; LAID_LIMIT];
    let mut cost = [0i64; LAID_LIMIT];
    let ReadNetwork { vertices, reserved } = read_table(text, &mut low, &mut high, &mut cost)?;
    let edges = 2 * vertices;
    Ok(load_columns(
        vertices,
        reserved,
        &low[..edges],
        &high[..edges],
        &cost[..edges],
    ))
}

// Checks a table text: the refusals that the text meets, then 6 and 7 of the network that it stands for, or accepted.
pub fn check_table(table: &[u8]) -> Result<(), Refusal>
    ensures { told result ≡ acceptance_of (accept_table table.now) }
{
    check_loaded(load_table(table))
}

// Plans a table text: writes the chain text and the kept text of the network
// that it stands for, or gives the table's refusal, or 13 and writes nothing.
pub fn plan_table(table: &[u8], chain: &mut [u8], kept: &mut [u8]) -> Result<Planned, Refusal>
    ensures reply { told result ≡ table_plan_reply table.now chain.old kept.old }
    ensures chain { chain.new ≡
        table_planned_chain table.now chain.old kept.old }
    ensures kept { kept.new ≡
        table_planned_kept table.now chain.old kept.old }
{
    plan_loaded(load_table(table), chain, kept)
}

// Writes the network text that a table text stands for, which need not be an
// accepted network's; or gives the table's refusal, or 13.
pub fn table_network(table: &[u8], network: &mut [u8]) -> Result<usize, Refusal>
    ensures reply { told result ≡ reply_of (table_network table.now) network.old }
    ensures network { network.new ≡ after (table_network table.now) network.old }
{
    let mut low = [0u16; LAID_LIMIT];
    let mut high = [0u16; LAID_LIMIT];
    let mut cost = [0i64; LAID_LIMIT];
    let ReadNetwork { vertices, reserved } = read_table(table, &mut low, &mut high, &mut cost)?;
    let edges = 2 * vertices;
    write_network(
        vertices,
        reserved,
        &low[..edges],
        &high[..edges],
        &cost[..edges],
        network,
    )
}
