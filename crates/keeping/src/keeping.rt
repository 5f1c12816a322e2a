// A solver: it keeps its clauses in a storage and lets the engine answer.
ghost use Rattle.std.specs.Prelude.{◌≡◌, true, [], IfOk};

use crate::engine::Engine;
use masks::Question;
use solver::{Answer, Capacity, NoCapacity, Solver};
use std::alloc::{AllocError, Global};
use storage::Storage;

// A storage, and an engine that answers from it, with memory for as much as the storage may hold.
#[derive(Drop)]
pub struct Keeping<E: Engine> {
    storage: Storage,
    engine: E,
    ghost prepared: { E.Engine.prepared engine storage.capacity ≡ true },
}

impl<E: Engine> Keeping<E> {
    // Holds nothing, and reserves all the memory that it will use; fails only for want of memory.
    pub fn new(heap: Global, capacity: Capacity) -> Result<Keeping<E>, AllocError>
        ensures { IfOk result (λ s. (⟦<Keeping<E> as Solver>⟧.held s ≡ []) × (⟦<Keeping<E> as Solver>⟧.capacity s ≡ capacity)) }
    {
        let storage = Storage::new(heap, capacity)?;
        let engine = E::prepare(heap, capacity)?;
        Ok(Keeping { storage, engine })
    }
}

impl<E: Engine> Solver for Keeping<E> {
    ghost held = { λ s. s.storage.held };

    ghost capacity = { λ s. s.storage.capacity };

    fn clause_capacity(&self) -> usize {
        self.storage.places()
    }

    fn literal_capacity(&self) -> usize {
        self.storage.room()
    }

    fn clauses_held(&self) -> usize {
        self.storage.clauses_held()
    }

    fn literals_held(&self) -> usize {
        self.storage.literals_held()
    }

    fn wipe(&mut self) {
        self.storage.wipe();
    }

    fn add(&mut self, clause: &[u8]) -> Result<(), NoCapacity> {
        self.storage.add(clause)
    }

    fn cut(&mut self, count: usize) {
        self.storage.cut(count);
    }

    fn query(&mut self, assumed: &[u8]) -> Answer {
        self.engine.answer(Question {
            masks: self.storage.masks(),
            assumed,
        })
    }
}
