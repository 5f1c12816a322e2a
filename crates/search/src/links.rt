// What is done to the watched literals.
ghost use Rattle.std.specs.Prelude.{◌≡◌, ℕ, ◌^◌, ◌*◌, ◌-◌, ◌<◌, ◌≤◌, List, ◌∷◌, length, min, IfOk, vec_items, vec_capacity};
ghost use Rattle.search.specs.Chains.{At, Moved, Unlinked, chain_of, link_at, partner_of};
ghost use Rattle.search.specs.Watched.{Highest, watched, room, Idle, added, literal_by, both, Begun, Advanced};

use crate::watches::{Cursor, Link, Watches};
use masks::{ClauseMask, Standing, has_variable, set_of, without};
use std::alloc::{AllocError, Global};

// The highest of the variables. It is 0 where there is none, so that each clause has two links all the same.
fn highest(variables: u128) -> u8
    ensures bound { result < 128 }
    ensures highest { Highest variables result }
{
    (127 - variables.leading_zeros().min(127)) as u8
}

// The literal of the variable in the clause, plain where it has both.
fn literal_in(mask: ClauseMask, variable: u8) -> u8
    ensures { result ≡ literal_by mask variable }
{
    variable % 128 * 2 + u8::from(!has_variable(mask.positive, variable))
}

// Takes the link at which the cursor is out of its chain: what was before it comes to lead to the next.
fn unlink(
    heads: &mut Box<[Option<usize>; 256]>,
    links: &mut Vec<Link>,
    at: Cursor,
    next: Option<usize>,
)
    requires wide { length heads.old.value ≡ 256 }
    requires before { (b : ℕ) → at.before ≡ Some b → b < length (vec_items links.old) }
    ensures unlinked { Unlinked heads.old.value heads.new.value (vec_items links.old) (vec_items links.new) at next }
    ensures room { vec_capacity links.new ≡ vec_capacity links.old }
{
    match at.before {
        Some(before) => links[before].next = next,
        None => heads[usize::from(at.literal)] = next,
    }
}

impl Watches {
    // Watches nothing, with room for so many clauses.
    pub fn new(heap: Global, clauses: usize) -> Result<Watches, AllocError>
        ensures { IfOk result (λ w. Idle w × (room w ≡ min (clauses * 2) (2 ^ 64 - 1))) }
    {
        let heads = Box::new(heap, [None; 256])?;
        let links = Vec::with_capacity(heap, clauses.saturating_mul(2))?;
        Ok(Watches { heads, links })
    }

    // Watches nothing.
    pub fn clear(&mut self)
        ensures idle { Idle self.new }
        ensures room { room self.new ≡ room self.old }
    {
        self.links.clear();
        *self.heads = [None; 256];
    }

    // How many links there are.
    pub fn len(&self) -> usize
        ensures { result ≡ length (vec_items self.now.links) }
    {
        self.links.len()
    }

    // Watches the literal for the clause, where there is room for one more.
    fn link(&mut self, clause: usize, literal: u8)
        ensures watched { watched self.new ≡ added (room self.old) (clause, literal) (watched self.old) }
        ensures room { room self.new ≡ room self.old }
    {
        let place = self.links.len();
        if place >= self.links.capacity() {
            return;
        }
        let head = usize::from(literal);
        let first = self.heads[head];
        self.heads[head] = Some(place);
        self.links.push_reserved(Link {
            clause,
            literal,
            next: first,
        });
    }

    // Watches the literals that the clause has of two variables.
    pub fn watch(&mut self, clause: usize, mask: ClauseMask, one: u8, other: u8)
        ensures watched { watched self.new ≡ both (room self.old) clause mask one other (watched self.old) }
        ensures room { room self.new ≡ room self.old }
    {
        self.link(clause, literal_in(mask, one));
        self.link(clause, literal_in(mask, other));
    }

    // Watches two open literals of a clause that is open, those of the highest variables, which are chosen last.
    pub fn begin(&mut self, clause: usize, mask: ClauseMask, stood: Standing, known: u128)
        ensures watched { Begun mask known clause (room self.old) stood (watched self.old) (watched self.new) }
        ensures room { room self.new ≡ room self.old }
    {
        if let Standing::Open = stood {
            let open = without(mask.variables(), known);
            let one = highest(open);
            self.watch(clause, mask, one, highest(without(open, set_of(one))));
        }
    }

    // The first link of the literal.
    pub fn first(&self, literal: u8) -> Cursor
        ensures literal { result.literal ≡ literal }
        ensures walks { At self.now.heads.value (vec_items self.now.links) result (chain_of self.now.heads.value (vec_items self.now.links) literal) }
    {
        Cursor {
            literal,
            before: None,
            place: self.heads[usize::from(literal)],
        }
    }

    // The clause of the link, where there is one.
    pub fn clause(&self, at: Cursor) -> Option<usize>
        ensures some { (p : ℕ) → at.place ≡ Some p → p < length (vec_items self.now.links) → result ≡ Some (link_at (vec_items self.now.links) p).clause }
        ensures none { at.place ≡ None → result ≡ None }
        ensures past { (p : ℕ) → at.place ≡ Some p → length (vec_items self.now.links) ≤ p → result ≡ None }
    {
        let link = self.links.get(at.place?)?;
        Some(link.clause)
    }

    // The next link of the literal; the clause of an open one comes to be watched by another open literal instead.
    pub(crate) fn advance(
        &mut self,
        at: Cursor,
        mask: ClauseMask,
        stood: Standing,
        known: u128,
    ) -> Cursor
        requires { (qs : List ℕ) × At self.old.heads.value (vec_items self.old.links) at qs }
        ensures walks { (p : ℕ) (qs : List ℕ) → At self.old.heads.value (vec_items self.old.links) at (p ∷ qs) → At self.new.heads.value (vec_items self.new.links) result qs }
        ensures many { length (vec_items self.new.links) ≡ length (vec_items self.old.links) }
        ensures clauses { (p : ℕ) → (link_at (vec_items self.new.links) p).clause ≡ (link_at (vec_items self.old.links) p).clause }
        ensures literals { (p : ℕ) → (at.place ≡ Some p → ⊥) → (link_at (vec_items self.new.links) p).literal ≡ (link_at (vec_items self.old.links) p).literal }
        ensures moves { (p : ℕ) → at.place ≡ Some p → Advanced mask known (partner_of (vec_items self.old.links) p) stood (link_at (vec_items self.old.links) p).literal (link_at (vec_items self.new.links) p).literal }
        ensures room { room self.new ≡ room self.old }
    {
        let Some(place) = at.place else {
            return at;
        };
        let link = self.links[place];
        let literal = self.next_literal(place, at.literal, mask, stood, known);
        // a link that stays is passed
        if literal == at.literal {
            return Cursor {
                before: Some(place),
                place: link.next,
                ..at
            };
        }
        self.relink(at, place, link, literal);
        Cursor {
            place: link.next,
            ..at
        }
    }

    // The literal that the link comes to be of: that of the highest open variable but the partner's where the clause is open.
    fn next_literal(
        &self,
        place: usize,
        literal: u8,
        mask: ClauseMask,
        stood: Standing,
        known: u128,
    ) -> u8
        ensures { Advanced mask known (partner_of (vec_items self.now.links) place) stood literal result }
    {
        if let Standing::Open = stood {
            let open = without(mask.variables(), known);
            return literal_in(mask, highest(without(open, self.partner(place))));
        }
        literal
    }

    // The variable of the other link of the same clause, as a bit.
    fn partner(&self, place: usize) -> u128
        ensures { result ≡ partner_of (vec_items self.now.links) place }
    {
        let other = if place % 2 == 0 { place + 1 } else { place - 1 };
        self.links
            .get(other)
            .map_or(0, |link| set_of(link.literal / 2))
    }

    // Moves the link at the place to another literal.
    fn relink(&mut self, at: Cursor, place: usize, link: Link, literal: u8)
        requires walks { (qs : List ℕ) × At self.old.heads.value (vec_items self.old.links) at (place ∷ qs) }
        requires is { link ≡ link_at (vec_items self.old.links) place }
        requires apart { literal ≡ at.literal → ⊥ }
        ensures moved { Moved self.old.heads.value self.new.heads.value (vec_items self.old.links) (vec_items self.new.links) at place literal }
        ensures room { room self.new ≡ room self.old }
    {
        unlink(&mut self.heads, &mut self.links, at, link.next);
        let head = usize::from(literal);
        let next = self.heads[head];
        self.heads[head] = Some(place);
        self.links[place] = Link {
            literal,
            next,
            ..link
        };
    }
}
