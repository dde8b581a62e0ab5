// Candidates for the reserved edge: a network text is planned for each of them.
ghost use Rattle.std.specs.Prelude.{◌≡◌, length};
ghost use Rattle.base.specs.Answer.{given, room_in, after, refusal_of, number_given};
ghost use Rattle.candidates.specs.Services.{candidates_text};

use base::give_out;
use candidates::plan_candidates;

// Plans a network text for each of many candidates into the costs of their plans, and gives the length of these.
#[unsafe(no_mangle)]
pub extern "C" fn thinning_plan_candidates(
    network: &[u8],
    reserved: &[u16],
    costs: &mut [u8],
    written: &mut usize,
) -> u32
    ensures number { result ≡ refusal_of
        (given (room_in costs.old) (candidates_text network.now reserved.now)) }
    ensures costs { costs.new ≡
        after (candidates_text network.now reserved.now) costs.old }
    ensures written { written.new ≡ number_given length (given (room_in costs.old)
        (candidates_text network.now reserved.now)) written.old }
{
    give_out(plan_candidates(network, reserved, costs), written)
}
