// A solver that counts its questions, for measuring.
#![tactic(auto)]

ghost use Rattle.std.specs.Prelude.{◌≡◌, ◌+◌, ◌-◌, ◌^◌, min, [], ◌∷◌, ◌++◌, take, is_ok, if◌then◌else◌};
ghost use Rattle.solver.specs.Answers.{Answered, fits};

use solver::{Answer, NoCapacity, Solver};
use std::marker::Model;

// A solver, and how often it was asked.
#[derive(Drop)]
pub struct Tally<S: Solver> {
    solver: S,
    asked: u64,
}

impl<S: Solver> Model for Tally<S> {
    ghost use Rattle.tally.specs.Tallied.{Tallied};

    ghost Value = { Tallied };

    ghost view = { λ t. record { held = S.Solver.held t.solver; capacity = S.Solver.capacity t.solver; asked = t.asked } };
}

impl<S: Solver> Tally<S> {
    // The solver, not asked yet.
    pub fn new(solver: S) -> Tally<S>
        ensures held { result.held ≡ S.Solver.held solver }
        ensures capacity { result.capacity ≡ S.Solver.capacity solver }
        ensures asked { result.asked ≡ 0 }
    {
        Tally { solver, asked: 0 }
    }

    // How many questions were asked.
    pub fn asked(&self) -> u64
        ensures { result ≡ self.now.asked }
    {
        self.asked
    }
}

// What every solver promises, and that just a question counts, up to the most that the number can be.
impl<S: Solver> Solver for Tally<S> {
    ghost held = { λ t. t.held };

    ghost capacity = { λ t. t.capacity };

    fn clause_capacity(&self) -> usize {
        self.solver.clause_capacity()
    }

    fn literal_capacity(&self) -> usize {
        self.solver.literal_capacity()
    }

    fn clauses_held(&self) -> usize {
        self.solver.clauses_held()
    }

    fn literals_held(&self) -> usize {
        self.solver.literals_held()
    }

    fn wipe(&mut self)
        ensures held { self.new.held ≡ [] }
        ensures capacity { self.new.capacity ≡ self.old.capacity }
        ensures asked { self.new.asked ≡ self.old.asked }
    {
        self.solver.wipe();
    }

    fn add(&mut self, clause: &[u8]) -> Result<(), NoCapacity>
        ensures test { is_ok result ≡ fits self.old.held clause.now self.old.capacity }
        ensures held { self.new.held ≡ (if is_ok result then self.old.held ++ clause.now ∷ [] else self.old.held) }
        ensures capacity { self.new.capacity ≡ self.old.capacity }
        ensures asked { self.new.asked ≡ self.old.asked }
    {
        self.solver.add(clause)
    }

    fn cut(&mut self, count: usize)
        ensures held { self.new.held ≡ take count self.old.held }
        ensures capacity { self.new.capacity ≡ self.old.capacity }
        ensures asked { self.new.asked ≡ self.old.asked }
    {
        self.solver.cut(count);
    }

    fn query(&mut self, assumed: &[u8]) -> Answer
        ensures answer { Answered self.old.held assumed.now result }
        ensures held { self.new.held ≡ self.old.held }
        ensures capacity { self.new.capacity ≡ self.old.capacity }
        ensures asked { self.new.asked ≡ min (self.old.asked + 1) (2 ^ 64 - 1) }
    {
        self.asked = self.asked.saturating_add(1);
        self.solver.query(assumed)
    }
}
