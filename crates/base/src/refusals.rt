// The refusals, by the numbers of documents 01 and 02.
ghost use Rattle.std.specs.Prelude.{◌≡◌, ◌++◌, Some, codes, decimal};
ghost use Rattle.base.specs.Answer.{number_of};

use std::error::Error;
use std::fmt;

// Why a call is refused.
#[derive(Clone, Copy, Debug, PartialEq, Eq, Hash)]
pub enum Refusal {
    // A broken line, a wrong kind or length, missing frames, bytes left over.
    Form = 1,
    // How many vertices there are.
    Vertices = 2,
    // The reserved edge, or a candidate for it, is none of the network's.
    Reserved = 3,
    // An edge's number or its ends.
    Ends = 4,
    // An edge's cost.
    Cost = 5,
    // A vertex without degree 4.
    Degree = 6,
    // A cut crossed by fewer than four edges.
    Cut = 7,
    // v is no end of the reserved edge.
    NoEnd = 8,
    // x or y is no partner at v, or they are one.
    NoPartner = 9,
    // x or y is not admissible.
    NotAdmissible = 10,
    // x costs less than y.
    Cheaper = 11,
    // The dropped edge is none of the last three, or cheaper than another of them.
    NotDearest = 12,
    // A buffer shorter than what is due to it.
    Short = 13,
    // A listed edge that is not the network's, or not above the one before.
    Unlisted = 14,
    // A span's doubled weight, or a pair of ends that is not above the one before.
    Weight = 15,
    // More spans than a network has edges, or weights that total another number.
    Total = 16,
    // z is not the third partner, or its cost is not the one after the step.
    NotGiven = 17,
}

impl Refusal {
    // Its number.
    pub fn number(self) -> u8
        ensures { result ≡ number_of self }
    {
        self as u8
    }
}

// Written as "refused " and its number in base ten.
impl fmt::Display for Refusal {
    ghost output = { λ refusal. Some (codes "refused " ++ decimal (number_of refusal)) };

    fn fmt<W: fmt::Write>(&self, f: &mut fmt::Formatter<W>) -> fmt::Result {
        write!(f, "refused {}", self.number())
    }
}

impl Error for Refusal {}
