// What is done to the cache of learned clauses.
ghost use Rattle.std.specs.Prelude.{◌≡◌, ℕ, ◌-◌, ◌*◌, ◌<◌, List, [], ◌∷◌, ◌++◌, IfOk, vec_len, vec_capacity};
ghost use Rattle.masks.specs.Masks.{Implied};
ghost use Rattle.masks.specs.Questions.{Each};
ghost use Rattle.masks.specs.declared.mask.ClauseMask.{ClauseMask};
ghost use Rattle.search.specs.Searches.{Roomy};
ghost use Rattle.search.specs.Watched.{watched, room, literal_by, Idle};

use crate::learned::{Learned, MOST};
use crate::watches::Watches;
use masks::ClauseMask;
use std::alloc::{AllocError, Global};

impl Learned {
    // No clause, with room for as many as are kept.
    pub fn new(heap: Global) -> Result<Learned, AllocError>
        ensures { IfOk result (λ l. (l.clauses.items ≡ []) × Idle l.watches × (vec_capacity l.clauses ≡ MOST) × (room l.watches ≡ MOST * 2)) }
    {
        let clauses = Vec::with_capacity(heap, MOST)?;
        let watches = Watches::new(heap, MOST)?;
        Ok(Learned { clauses, watches })
    }

    // Lets all go.
    pub fn clear(&mut self)
        ensures none { self.new.clauses.items ≡ [] }
        ensures idle { Idle self.new.watches }
    {
        self.clauses.clear();
        self.watches.clear();
    }

    // Lets all go where there is no room for one more.
    fn make_room(&mut self)
        ensures room { vec_len self.new.clauses < MOST }
        ensures kept { Roomy (vec_len self.old.clauses) self.old.clauses.items self.new.clauses.items }
        ensures watched { Roomy (vec_len self.old.clauses) (watched self.old.watches) (watched self.new.watches) }
        ensures each { (base : List (List ℕ)) → Each base self.old.clauses.items → Each base self.new.clauses.items }
    {
        if self.clauses.len() >= MOST {
            self.clear();
        }
    }

    // Keeps the clause, watched by two of its variables, and lets the others go where there is no room.
    pub fn remember(&mut self, clause: ClauseMask, one: u8, other: u8)
        ensures last { (earlier : List ClauseMask) × Roomy (vec_len self.old.clauses) self.old.clauses.items earlier × (self.new.clauses.items ≡ earlier ++ clause ∷ []) }
        ensures watched { (links : List (ℕ × ℕ)) × Roomy (vec_len self.old.clauses) (watched self.old.watches) links × (watched self.new.watches ≡ links ++ (vec_len self.new.clauses - 1, literal_by clause one) ∷ (vec_len self.new.clauses - 1, literal_by clause other) ∷ []) }
        ensures each { (base : List (List ℕ)) → Each base self.old.clauses.items → Implied base clause → Each base self.new.clauses.items }
    {
        self.make_room();
        self.watches.watch(self.clauses.len(), clause, one, other);
        self.clauses.push_reserved(clause);
    }
}
