// Unit propagation.
ghost use Rattle.std.specs.Prelude.{◌≡◌, ℕ, not, List, length, vec_items};
ghost use Rattle.system.specs.Spelling.{literal_of};
ghost use Rattle.masks.specs.Masks.{Implied};
ghost use Rattle.masks.specs.Questions.{Each};
ghost use Rattle.masks.specs.Standings.{Stands};
ghost use Rattle.trail.specs.Entries.{entries, made_true, handed_out};
ghost use Rattle.trail.specs.Reasons.{Sound};
ghost use Rattle.search.specs.Looks.{Named, SweptTo, LookedAt, Settles, Propagated};
ghost use Rattle.search.specs.Searches.{Extends, Conflict, Brings, Upheld, Keeps};
ghost use Rattle.search.specs.Watched.{room, watched, Stays};

use crate::search::Search;
use crate::watches::Watches;
use masks::{ClauseMask, Standing};
use trail::{Decision, Forcing, Trail};

// The literal that the decision makes false, as its byte. It stays a function of a decision: a literal of a variable above 127
// has no byte.
fn falsified(decision: Decision) -> u8
    ensures { result ≡ literal_of decision.variable (not decision.value) }
{
    decision.variable * 2 + u8::from(decision.value)
}

// Looks at one clause and assigns what it forces; answers how it stood.
fn visit(trail: &mut Trail, mask: ClauseMask) -> Standing
    ensures more { Extends (entries trail.old) (entries trail.new) }
    ensures sound { (base : List (List ℕ)) → Implied base mask → Sound base (entries trail.old) → Sound base (entries trail.new) }
    ensures stood { Stands mask (made_true trail.old) result }
    ensures brings { Brings mask (entries trail.old) result (entries trail.new) }
    ensures done { handed_out trail.new ≡ handed_out trail.old }
{
    let stood = mask.standing(trail.assigned());
    if let Standing::Forces(literal) = stood {
        trail.assign(literal, Forcing::Forced(mask));
    }
    stood
}

// Looks at the clauses that are watched by the literal, which became false.
fn follow(
    trail: &mut Trail,
    masks: &[ClauseMask],
    watches: &mut Watches,
    literal: u8,
) -> Option<ClauseMask>
    requires { Named (vec_items watches.old.links) (length masks.now) }
    ensures more { Extends (entries trail.old) (entries trail.new) }
    ensures sound { (base : List (List ℕ)) → Each base masks.now → Sound base (entries trail.old) → Sound base (entries trail.new) }
    ensures found { Conflict (entries trail.new) (λ base. Each base masks.now) result }
    ensures done { handed_out trail.new ≡ handed_out trail.old }
    ensures stays { Stays watches.old watches.new }
    ensures looked { result ≡ None → LookedAt (vec_items watches.old.links) literal masks.now (entries trail.old) (entries trail.new) }
    ensures settled { result ≡ None → Settles (vec_items watches.old.links) (vec_items watches.new.links) literal masks.now (entries trail.old) (entries trail.new) }
{
    let mut at = watches.first(literal);
    // as many turns as there are links are enough, since no link comes twice
    for _turn in 0..watches.len() {
        let mask = *masks.get(watches.clause(at)?)?;
        let stood = visit(trail, mask);
        if let Standing::False = stood {
            return Some(mask);
        }
        at = watches.advance(at, mask, stood, trail.assigned().variables());
    }
    None
}

impl Search {
    // Goes through the clauses once: assigns what one forces, watches the open ones, and stops at the first that is all false.
    pub(crate) fn sweep(&mut self, masks: &[ClauseMask]) -> Option<ClauseMask>
        ensures more { Extends (entries self.old.trail) (entries self.new.trail) }
        ensures keeps { Keeps (λ base. Each base masks.now) self.old self.new }
        ensures found { Conflict (entries self.new.trail) (λ base. Each base masks.now) result }
        ensures swept { result ≡ None → SweptTo (length masks.now) masks.now (room self.old.watches) (entries self.old.trail) (entries self.new.trail) (watched self.new.watches) }
        ensures named { Named (vec_items self.old.watches.links) (length masks.now) → Named (vec_items self.new.watches.links) (length masks.now) }
        ensures room { room self.new.watches ≡ room self.old.watches }
        ensures learned { self.new.learned ≡ self.old.learned }
    {
        for (clause, mask) in masks.iter().enumerate() {
            let stood = visit(&mut self.trail, *mask);
            if let Standing::False = stood {
                return Some(*mask);
            }
            self.watches
                .begin(clause, *mask, stood, self.trail.assigned().variables());
        }
        None
    }

    // Looks at the clauses of the literals that became false, to the last decision or a clause that is all false.
    #[tactic(auto, using(trail::proofs::Deciding::at_most))]
    pub(crate) fn propagate(&mut self, masks: &[ClauseMask]) -> Option<ClauseMask>
        requires { Named (vec_items self.old.watches.links) (length masks.now) }
        ensures more { Extends (entries self.old.trail) (entries self.new.trail) }
        ensures keeps { Keeps (λ base. Each base masks.now) self.old self.new }
        ensures found { Conflict (entries self.new.trail) (λ base. Each base masks.now × Upheld base self.old) result }
        ensures stays { Stays self.old.watches self.new.watches }
        ensures learned { vec_items self.new.learned.clauses ≡ vec_items self.old.learned.clauses }
        ensures propagated { result ≡ None → Propagated masks.now (handed_out self.old.trail) self.new }
    {
        while let Some(decision) = self.trail.advance() {
            let literal = falsified(decision);
            if let Some(mask) = follow(&mut self.trail, masks, &mut self.watches, literal) {
                return Some(mask);
            }
            let learned = &mut self.learned;
            if let Some(mask) = follow(
                &mut self.trail,
                learned.clauses.as_slice(),
                &mut learned.watches,
                literal,
            ) {
                return Some(mask);
            }
        }
        None
    }
}
