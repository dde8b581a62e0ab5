// What an export for C gives of a result.
ghost use Rattle.std.specs.Prelude.{◌≡◌};
ghost use Rattle.base.specs.Answer.{told, refusal_of, number_given};

use super::Refusal;

// Gives a value out, with 0, or a refusal's number, with nothing.
pub fn give_out<T: Copy>(reply: Result<T, Refusal>, out: &mut T) -> u32
    ensures number { result ≡ refusal_of (told reply) }
    ensures out { out.new ≡ number_given (λ value. value) (told reply) out.old }
{
    match reply {
        Ok(value) => {
            *out = value;
            0
        }
        Err(refusal) => refusal.number() as u32,
    }
}
