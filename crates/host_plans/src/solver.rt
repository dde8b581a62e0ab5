// Solver tables: a table text is checked, planned, and written as a network text.
ghost use Rattle.std.specs.Prelude.{◌≡◌, length};
ghost use Rattle.base.specs.Answer.{given, filled, room_in, after, refusal_of, number_given};
ghost use Rattle.tables.specs.Services.{accept_table, table_plan_given, table_network};

use super::plans::give_lengths;
use base::give_out;
use tables::{check_table, plan_table, table_network};

// Checks a table text.
#[unsafe(no_mangle)]
pub extern "C" fn thinning_check_table(table: &[u8]) -> u32
    ensures { result ≡ refusal_of (accept_table table.now) }
{
    give_out(check_table(table), &mut ())
}

// Plans a table text into a chain text and a kept text, and gives their lengths.
#[unsafe(no_mangle)]
pub extern "C" fn thinning_plan_table(
    table: &[u8],
    chain: &mut [u8],
    kept: &mut [u8],
    chain_written: &mut usize,
    kept_written: &mut usize,
) -> u32
    ensures number { result ≡ refusal_of
        (table_plan_given table.now chain.old kept.old) }
    ensures chain { chain.new ≡ filled (λ t. t.chain)
        (table_plan_given table.now chain.old kept.old) chain.old }
    ensures kept { kept.new ≡ filled (λ t. t.kept)
        (table_plan_given table.now chain.old kept.old) kept.old }
    ensures chain_written { chain_written.new ≡ number_given (λ t. length t.chain)
        (table_plan_given table.now chain.old kept.old)
        chain_written.old }
    ensures kept_written { kept_written.new ≡ number_given (λ t. length t.kept)
        (table_plan_given table.now chain.old kept.old)
        kept_written.old }
{
    give_lengths(plan_table(table, chain, kept), chain_written, kept_written)
}

// Writes the network text that a table text stands for, and gives its length.
#[unsafe(no_mangle)]
pub extern "C" fn thinning_table_network(
    table: &[u8],
    network: &mut [u8],
    written: &mut usize,
) -> u32
    ensures number { result ≡ refusal_of
        (given (room_in network.old) (table_network table.now)) }
    ensures network { network.new ≡
        after (table_network table.now) network.old }
    ensures written { written.new ≡ number_given length
        (given (room_in network.old) (table_network table.now)) written.old }
{
    give_out(table_network(table, network), written)
}
