// What is told of a fault.
ghost use Rattle.std.specs.Prelude.{◌≡◌, Some};

use std::fmt;

// The layer that refuses, the number of the refusal, and what it points at: mostly the index of a byte.
#[derive(Clone, Copy, PartialEq, Eq, Debug)]
pub struct Refusal {
    pub layer: u32,
    pub number: u32,
    pub place: usize,
}

impl Refusal {
    pub(crate) fn new(layer: u32, number: u32, place: usize) -> Refusal
        ensures { result ≡ record { layer = layer; number = number; place = place } }
    {
        Refusal {
            layer,
            number,
            place,
        }
    }
}

// Layer, number and place, with a space between.
impl fmt::Display for Refusal {
    ghost use Rattle.faults.specs.Refusals.{told};

    ghost output = { λ refusal. Some (told refusal) };

    fn fmt<W: fmt::Write>(&self, f: &mut fmt::Formatter<W>) -> fmt::Result {
        write!(f, "{} {} {}", self.layer, self.number, self.place)
    }
}
