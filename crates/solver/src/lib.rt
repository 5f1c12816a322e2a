// What a solver is: it holds a list of clauses within two fixed capacities, and says whether some valuation makes all of
// them and some assumed literals true. Every byte is a literal: about variable byte / 2, negated where odd.
#![tactic(auto)]

ghost use Rattle.std.specs.Prelude.{◌≡◌, ℕ, ◌≤◌, true, List, [], ◌∷◌, ◌++◌, length, take, is_ok, if◌then◌else◌};
ghost use Rattle.system.specs.Literals.{size};
ghost use Rattle.solver.specs.Answers.{Answered, fits};
ghost use Rattle.solver.specs.declared.capacity.Capacity.{Capacity};

mod answer;
mod capacity;
mod smallest;
mod spare;

pub use answer::Answer;
pub use capacity::{Capacity, NoCapacity};
pub use smallest::{Smallest, laws, smallest_questions};
pub use spare::has_spare;

// What an implementer shows. A solver means the list that it holds and its two capacities; every function says what
// becomes of them.
pub trait Solver {
    // The clauses in the order in which they were added.
    ghost held: { Self → List (List ℕ) };

    ghost capacity: { Self → Capacity };

    fn clause_capacity(&self) -> usize
        ensures { result ≡ (capacity self.now).clauses };

    fn literal_capacity(&self) -> usize
        ensures { result ≡ (capacity self.now).literals };

    // How many clauses are held, which is never more than fit.
    fn clauses_held(&self) -> usize
        ensures value { result ≡ length (held self.now) }
        ensures bound { result ≤ (capacity self.now).clauses };

    // How many literals these have, which is never more than fit.
    fn literals_held(&self) -> usize
        ensures value { result ≡ size (held self.now) }
        ensures bound { result ≤ (capacity self.now).literals };

    // Holds nothing afterwards.
    fn wipe(&mut self)
        ensures held { held self.new ≡ [] }
        ensures capacity { capacity self.new ≡ capacity self.old };

    // Appends the clause, or says that there is no capacity, exactly where either would be passed, and holds what it held.
    fn add(&mut self, clause: &[u8]) -> Result<(), NoCapacity>
        ensures test { is_ok result ≡ fits (held self.old) clause.now (capacity self.old) }
        ensures held { held self.new ≡ (if is_ok result then held self.old ++ clause.now ∷ [] else held self.old) }
        ensures capacity { capacity self.new ≡ capacity self.old };

    // Cuts back to the first clauses, so many of them, or all where there are fewer.
    fn cut(&mut self, count: usize)
        ensures held { held self.new ≡ take count (held self.old) }
        ensures capacity { capacity self.new ≡ capacity self.old };

    // Yes, with a valuation that makes every held clause and every assumed literal true, or no, where there is none.
    fn query(&mut self, assumed: &[u8]) -> Answer
        ensures answer { Answered (held self.old) assumed.now result }
        ensures held { held self.new ≡ held self.old }
        ensures capacity { capacity self.new ≡ capacity self.old };
}
