// Audits: which vertices the edges of a list join, and how many of them are critical.
ghost use Rattle.std.specs.Prelude.{◌≡◌};
ghost use Rattle.audit.specs.Service.{audit_text};
ghost use Rattle.base.specs.Answer.{refusal_of, number_given};

use audit::audit_list;

// Audits a list over a network text: whether it joins all vertices, how
// many it joins to vertex 0, and how many of its edges are critical.
#[unsafe(no_mangle)]
pub extern "C" fn thinning_audit(
    network: &[u8],
    list: &[u8],
    connected: &mut bool,
    reached: &mut usize,
    critical: &mut usize,
) -> u32
    ensures number { result ≡ refusal_of (audit_text network.now list.now) }
    ensures connected { connected.new ≡ number_given (λ a. a.connected)
        (audit_text network.now list.now) connected.old }
    ensures reached { reached.new ≡ number_given (λ a. a.reached)
        (audit_text network.now list.now) reached.old }
    ensures critical { critical.new ≡ number_given (λ a. a.bridges)
        (audit_text network.now list.now) critical.old }
{
    match audit_list(network, list) {
        Ok(answers) => {
            *connected = answers.connected;
            *reached = answers.reached;
            *critical = answers.bridges;
            0
        }
        Err(refusal) => refusal.number() as u32,
    }
}
