// All literals in a row, the length of each clause, and its set of literals. It is made within two capacities and reserves
// all its memory then.
ghost use Rattle.std.specs.Prelude.{◌≡◌, ◌≤◌, [], ◌∷◌, ◌++◌, map, length, take, is_ok, IfOk, if◌then◌else◌};
ghost use Rattle.solver.specs.Answers.{fits};
ghost use Rattle.system.specs.Literals.{size};
ghost use Rattle.masks.specs.Masks.{mask_of};
ghost use Rattle.storage.specs.Stored.{Within};

use masks::ClauseMask;
use solver::{Capacity, NoCapacity};
use std::alloc::{AllocError, Global};
use std::marker::Model;

// The vectors stay apart: solvers read the sets of literals as one slice, and nothing may be allocated after making, as a
// vector of clauses would.
#[derive(Drop)]
pub struct Storage {
    literals: Vec<u8>,
    lengths: Vec<usize>,
    masks: Vec<ClauseMask>,
    capacity: Capacity,
}

impl Model for Storage {
    ghost use Rattle.storage.specs.Stored.{Stored};

    ghost Value = { Stored };

    ghost use Rattle.storage.specs.Storages.{stored, Kept};

    ghost view = { stored };

    ghost invariant = { Kept };
}

impl Storage {
    // Holds nothing.
    pub fn new(heap: Global, capacity: Capacity) -> Result<Storage, AllocError>
        ensures { IfOk result (λ s. (s.held ≡ []) × (s.capacity ≡ capacity)) }
    {
        let literals = Vec::with_capacity(heap, capacity.literals)?;
        let lengths = Vec::with_capacity(heap, capacity.clauses)?;
        let masks = Vec::with_capacity(heap, capacity.clauses)?;
        Ok(Storage {
            literals,
            lengths,
            masks,
            capacity,
        })
    }

    // How many clauses fit.
    pub fn places(&self) -> usize
        ensures { result ≡ self.now.capacity.clauses }
    {
        self.capacity.clauses
    }

    // How many literals fit.
    pub fn room(&self) -> usize
        ensures { result ≡ self.now.capacity.literals }
    {
        self.capacity.literals
    }

    // The set of literals of each clause.
    pub fn masks(&self) -> &[ClauseMask]
        ensures value { result.now ≡ map mask_of self.now.held }
        ensures within { Within self.now }
    {
        self.masks.as_slice()
    }

    // How many clauses are held, which is never more than fit.
    pub fn clauses_held(&self) -> usize
        ensures value { result ≡ length self.now.held }
        ensures bound { result ≤ self.now.capacity.clauses }
    {
        self.masks.len()
    }

    // How many literals these have, which is never more than fit.
    pub fn literals_held(&self) -> usize
        ensures value { result ≡ size self.now.held }
        ensures bound { result ≤ self.now.capacity.literals }
    {
        self.literals.len()
    }

    // Holds nothing afterwards.
    pub fn wipe(&mut self)
        ensures held { self.new.held ≡ [] }
        ensures capacity { self.new.capacity ≡ self.old.capacity }
    {
        self.literals.clear();
        self.lengths.clear();
        self.masks.clear();
    }

    // Appends the clause, where it fits.
    pub fn add(&mut self, clause: &[u8]) -> Result<(), NoCapacity>
        ensures test { is_ok result ≡ fits self.old.held clause.now self.old.capacity }
        ensures held { self.new.held ≡ (if is_ok result then self.old.held ++ clause.now ∷ [] else self.old.held) }
        ensures capacity { self.new.capacity ≡ self.old.capacity }
        ensures within { Within self.new }
    {
        if self.masks.len() >= self.capacity.clauses {
            return Err(NoCapacity);
        }
        if clause.len() > self.capacity.literals - self.literals.len() {
            return Err(NoCapacity);
        }
        let mask = ClauseMask::from(clause);
        // room is reserved, so this does not fail
        let _ = self.literals.extend_from_slice(clause);
        self.lengths.push_reserved(clause.len());
        self.masks.push_reserved(mask);
        Ok(())
    }

    // Keeps the first clauses, so many of them, or all where there are fewer.
    pub fn cut(&mut self, count: usize)
        ensures held { self.new.held ≡ take count self.old.held }
        ensures capacity { self.new.capacity ≡ self.old.capacity }
        ensures within { Within self.new }
    {
        self.masks.truncate(count);
        // only what goes is looked at
        let gone: usize = self.lengths[self.masks.len()..].iter().sum();
        self.lengths.truncate(count);
        let left = self.literals.len() - gone;
        self.literals.truncate(left);
    }
}
