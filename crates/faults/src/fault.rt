// What every fault tells of itself.
ghost use Rattle.std.specs.Prelude.{◌≡◌};

use crate::refusal::Refusal;

// A fault, which tells its layer, number and place by one definition.
pub trait Fault {
    ghost use Rattle.faults.specs.declared.refusal.Refusal.{Refusal};
    ghost use Rattle.faults.specs.Refusals.{error_code};

    ghost refusal: { Self → Refusal };

    // Layer, number and place in one.
    fn refusal(&self) -> Refusal
        ensures { result ≡ refusal self.now };

    // The layer that refuses: that of the fault inside where there is one.
    fn layer(&self) -> u32
        ensures { result ≡ (refusal self.now).layer }
    {
        self.refusal().layer
    }

    // The number of the refusal.
    fn number(&self) -> u32
        ensures { result ≡ (refusal self.now).number }
    {
        self.refusal().number
    }

    // What the refusal points at: mostly the index of a byte; for Short how many bytes there are; for a clause, an entry or a
    // state that there is not, the number that was given; for Marks and AgainstRules the number of the mark or entry.
    fn place(&self) -> usize
        ensures { result ≡ (refusal self.now).place }
    {
        self.refusal().place
    }

    // The number for C, where 0 says that nothing was refused: 1 where the refusal has none.
    fn error_code(&self) -> u32
        ensures { result ≡ error_code (refusal self.now) }
    {
        self.number().max(1)
    }
}
