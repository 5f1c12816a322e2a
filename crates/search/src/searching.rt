// The search: propagate, learn from a conflict and jump back, or choose, until all is true or nothing can be.
ghost use Rattle.std.specs.Prelude.{◌≡◌, ℕ, ◌^◌, ◌*◌, ◌-◌, ◌<◌, true, ◌⊎◌, min, length, reverse, None, IfOk, MatchResult, vec_items};
ghost use Rattle.system.specs.Literals.{bit};
ghost use Rattle.masks.specs.Masks.{Implied};
ghost use Rattle.masks.specs.Questions.{Units, Decided};
ghost use Rattle.masks.specs.Standings.{Unassigned};
ghost use Rattle.trail.specs.Entries.{entries, made_true};
ghost use Rattle.trail.specs.Reasons.{Refuted};
ghost use Rattle.search.specs.Searches.{Conflict, Asked, Occurring, Keeps, Refutes, Taught, Remembers, Chooses, Rises, Satisfies, Turned, Fresh, NoChoice, Lasts, Jumped};
ghost use Rattle.search.specs.Watched.{first_other, room, Stays};
ghost use Rattle.search.specs.Looks.{AssumedTo, Grounded, FirstPass, Named};

use crate::learned::Learned;
use crate::progress::{Progress, Unsatisfiable};
use crate::search::Search;
use crate::watches::Watches;
use analysis::analyze;
use masks::{ClauseMask, Literal, Question, Standing, without, yes_of};
use solver::Answer;
use std::alloc::{AllocError, Global};
use trail::{Decision, Forcing, Trail};

// The other variable of the clause that has the latest decision, or 0 where there is none, so that each clause has two links
// all the same. Nothing rests on it but speed.
fn latest(decisions: &[Decision], clause: ClauseMask, but: u8) -> u8
    ensures { result ≡ first_other clause but (reverse decisions.now) }
{
    decisions
        .iter()
        .rev()
        .find(|decision| decision.variable != but && clause.mentions(decision.variable))
        .map_or(0, |decision| decision.variable)
}

impl Search {
    // Reserves all the memory that it will use, for so many held clauses.
    pub fn new(heap: Global, clauses: usize) -> Result<Search, AllocError>
        ensures { IfOk result (λ s. Fresh s × (room s.watches ≡ min (clauses * 2) (2 ^ 64 - 1))) }
    {
        let trail = Trail::new(heap)?;
        let learned = Learned::new(heap)?;
        let watches = Watches::new(heap, clauses)?;
        Ok(Search {
            trail,
            learned,
            watches,
        })
    }

    // Learns from a clause that is all false, and jumps back: what is learned forces what is decided there.
    fn learn(&mut self, conflict: ClauseMask) -> Result<(), Unsatisfiable>
        requires { Refuted conflict (entries self.old.trail) }
        ensures keeps { Keeps (λ base. Implied base conflict) self.old self.new }
        ensures taught { IfOk result (λ _. Taught self.new) }
        ensures jumped { IfOk result (λ _. Jumped (entries self.old.trail) (entries self.new.trail)) }
        ensures cases { MatchResult result (λ _. Rises self.old self.new) (λ _. Refutes (λ base. Implied base conflict) self.old) }
        ensures kept { self.new.watches ≡ self.old.watches }
        ensures remembered { MatchResult result (λ _. Remembers self.old self.new) (λ _. self.new ≡ self.old) }
    {
        let jump = analyze(&self.trail, conflict).ok_or(Unsatisfiable)?;
        let variable = jump.literal.variable;
        self.trail
            .change(jump.to, jump.literal, Forcing::Forced(jump.clause));
        let other = latest(self.trail.decisions(), jump.clause, variable);
        self.learned.remember(jump.clause, variable, other);
        Ok(())
    }

    // Chooses one of the variables, the lowest, as false.
    fn choose(&mut self, candidates: u128)
        requires some { 0 < candidates }
        requires free { (j : ℕ) → bit candidates j ≡ true → Unassigned (made_true self.old.trail) j }
        ensures keeps { Keeps (λ base. Unit {0}) self.old self.new }
        ensures rises { Rises self.old self.new }
        ensures chosen { Chooses candidates (entries self.old.trail) (entries self.new.trail) }
        ensures kept { self.new.watches ≡ self.old.watches }
        ensures learned { self.new.learned ≡ self.old.learned }
    {
        let literal = Literal {
            variable: candidates.trailing_zeros() as u8,
            value: false,
        };
        self.trail.assign(literal, Forcing::Chosen);
    }

    // A choice, or the end: where each variable that occurs has a value, every clause and assumed literal is true, or one is
    // all false.
    fn decide(&mut self, question: Question, occurring: u128) -> Result<Progress, Unsatisfiable>
        requires { Occurring question occurring }
        ensures keeps { Keeps (Asked question.entry) self.old self.new }
        ensures cases { MatchResult result (Turned question.entry self.old self.new) (λ _. Refutes (Asked question.entry) self.old) }
        ensures lasts { IfOk result (λ _. Lasts (entries self.old.trail) (entries self.new.trail)) }
        ensures kept { self.new.watches ≡ self.old.watches }
    {
        let assigned = self.trail.assigned();
        let unknown = without(occurring, assigned.variables());
        if unknown != 0 {
            self.choose(unknown);
            return Ok(Progress::Further);
        }
        let Some(clause) = question.unmet(assigned) else {
            return Ok(Progress::Satisfied);
        };
        self.learn(clause)?;
        Ok(Progress::Further)
    }

    // Propagates, and then learns from a conflict or decides.
    fn turn(&mut self, question: Question, occurring: u128) -> Result<Progress, Unsatisfiable>
        requires occurring { Occurring question occurring }
        requires named { Named (vec_items self.old.watches.links) (length question.masks.now) }
        ensures keeps { Keeps (Asked question.entry) self.old self.new }
        ensures cases { MatchResult result (Turned question.entry self.old self.new) (λ _. Refutes (Asked question.entry) self.old) }
        ensures lasts { IfOk result (λ _. Lasts (entries self.old.trail) (entries self.new.trail)) }
        ensures stays { Stays self.old.watches self.new.watches }
    {
        if let Some(conflict) = self.propagate(question.masks) {
            self.learn(conflict)?;
            return Ok(Progress::Further);
        }
        self.decide(question, occurring)
    }

    // Puts the assumed literals on the trail; gives the clause of one that is false by those before it.
    fn assume(&mut self, assumed: &[u8]) -> Option<ClauseMask>
        ensures keeps { Keeps (λ base. Units base assumed.now) self.old self.new }
        ensures found { Conflict (entries self.new.trail) (λ base. Units base assumed.now) result }
        ensures assumed { result ≡ None → AssumedTo (length assumed.now) assumed.now (entries self.new.trail) }
        ensures unchosen { NoChoice (entries self.old.trail) → NoChoice (entries self.new.trail) }
        ensures kept { self.new.watches ≡ self.old.watches }
        ensures learned { self.new.learned ≡ self.old.learned }
    {
        for literal in assumed {
            let mask = ClauseMask::NONE.with_literal(*literal);
            match mask.standing(self.trail.assigned()) {
                Standing::Forces(forced) => self.trail.assign(forced, Forcing::Assumed),
                Standing::False => return Some(mask),
                Standing::True | Standing::Open => {}
            }
        }
        None
    }

    // Assumes the literals and looks at every clause once.
    fn begin(&mut self, question: Question) -> Result<(), Unsatisfiable>
        ensures keeps { Keeps (Asked question.entry) self.old self.new }
        ensures cases { MatchResult result (λ _. Unit {0}) (λ _. Refutes (Asked question.entry) self.old) }
        ensures grounded { NoChoice (entries self.old.trail) → IfOk result (λ _. Grounded question.entry.assumed.now (entries self.new.trail)) }
        ensures begun { IfOk result (λ _. Taught self.new ⊎ FirstPass question.entry.masks.now question.entry.assumed.now (room self.old.watches) self.new) }
        ensures named { Named (vec_items self.old.watches.links) (length question.entry.masks.now) → Named (vec_items self.new.watches.links) (length question.entry.masks.now) }
        ensures room { room self.new.watches ≡ room self.old.watches }
    {
        if let Some(conflict) = self.assume(question.assumed) {
            return self.learn(conflict);
        }
        if let Some(conflict) = self.sweep(question.masks) {
            return self.learn(conflict);
        }
        Ok(())
    }

    // Searches until the trail satisfies every clause and assumed literal.
    fn searched(&mut self, question: Question) -> Result<(), Unsatisfiable>
        requires { Fresh self.old }
        ensures cases { MatchResult result (λ _. Satisfies self.new question.entry) (λ _. Refutes (Asked question.entry) self.old) }
        ensures room { room self.new.watches ≡ room self.old.watches }
    {
        self.begin(question)?;
        // What is assumed stands on the trail before the first choice, so it stays true: from here on the held clauses alone
        // are to be met. Their variables are gathered only now, since the first pass may end with a no.
        let held = Question {
            assumed: &[],
            ..question
        };
        let occurring = held.variables();
        'turns: loop {
            match self.turn(held, occurring)? {
                Progress::Satisfied => return Ok(()),
                Progress::Further => {}
            }
        }
    }

    // The answer to the question.
    pub fn answer(&mut self, question: Question) -> Answer
        ensures answer { Decided question.entry result }
        ensures room { room self.new.watches ≡ room self.old.watches }
    {
        self.trail.clear();
        self.learned.clear();
        self.watches.clear();
        match self.searched(question) {
            Ok(()) => yes_of(self.trail.assigned().positive),
            Err(Unsatisfiable) => Answer::No,
        }
    }
}
