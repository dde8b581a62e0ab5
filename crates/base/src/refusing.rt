// What a service refuses with: a number, among which are those of this core's refusals.
ghost use Rattle.std.specs.Prelude.{◌≡◌, ℕ};
ghost use Rattle.std.proofs.Common.{ap};
ghost use Rattle.base.specs.Answer.{number_of};
ghost use Rattle.base.specs.declared.refusals.Refusal.{Refusal};

use super::Refusal;

// A refusal that has a number. Each refusal of this core becomes one with the same number.
pub trait Refuses: Copy + From<Refusal> {
    // Its number.
    ghost number: { Self → ℕ };

    // A refusal of this core keeps its number.
    ghost keeps_number: { (refusal : Refusal) (own : Self) → Self.from_gives refusal own → number own ≡ number_of refusal };
}

// This core's refusals have their own numbers.
impl Refuses for Refusal {
    ghost number = { number_of };

    ghost keeps_number = { λ refusal own same. ap number_of same };
}

// A byte is the number itself, so that a caller can refuse with numbers of its own.
impl Refuses for u8 {
    ghost number = { λ number. number };

    ghost keeps_number = { λ refusal number same. same };
}

impl From<Refusal> for u8 {
    ghost from_gives = { λ refusal number. number ≡ number_of refusal };

    fn from(refusal: Refusal) -> u8 {
        refusal.number()
    }
}
