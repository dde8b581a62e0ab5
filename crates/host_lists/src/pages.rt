// Pages for the site binder: a line for each edge of a list, and the sum of their costs.
ghost use Rattle.std.specs.Prelude.{◌≡◌, length};
ghost use Rattle.base.specs.Answer.{given, room_in, after, refusal_of, number_given};
ghost use Rattle.page.specs.Page.{page_text};

use base::give_out;
use page::print_page;

// Prints a list over a network text, and gives the page's length.
#[unsafe(no_mangle)]
pub extern "C" fn thinning_print_page(
    network: &[u8],
    list: &[u8],
    page: &mut [u8],
    written: &mut usize,
) -> u32
    ensures number { result ≡ refusal_of
        (given (room_in page.old) (page_text network.now list.now)) }
    ensures page { page.new ≡ after
        (page_text network.now list.now) page.old }
    ensures written { written.new ≡ number_given length
        (given (room_in page.old) (page_text network.now list.now))
        written.old }
{
    give_out(print_page(network, list, page), written)
}
