// Two literals of each clause that are watched: the clause is looked at when one of them becomes false. Nothing rests on
// what is watched but speed: a clause that goes unnoticed is found by the last pass over all held clauses.
ghost use Rattle.std.specs.Prelude.{◌≡◌, length, vec_items};
ghost use Rattle.search.specs.Chains.{Linked, linked_prop};

// A watched literal of a clause, and the place of the next link with the same literal. The two links of a clause stand
// side by side.
#[derive(Clone, Copy, PartialEq, Eq, Debug)]
pub struct Link {
    pub(crate) clause: usize,
    pub(crate) literal: u8,
    pub(crate) next: Option<usize>,
}

// Where a walk along the links of one literal is: the place of a link, or none at the end; and the place of the link before
// it, or none at the beginning.
#[derive(Clone, Copy, PartialEq, Eq, Debug)]
pub struct Cursor {
    pub(crate) literal: u8,
    pub(crate) before: Option<usize>,
    pub(crate) place: Option<usize>,
}

// What is watched, by literal.
#[derive(Drop)]
pub struct Watches {
    // for each literal the place of its first link; in memory of their own, so that a search is small to move and takes little
    // of the stack
    pub(crate) heads: Box<[Option<usize>; 256]>,
    // all links stand in one table, as nothing is allocated once it is made
    pub(crate) links: Vec<Link>,
    // one for each literal
    ghost wide: { length heads.value ≡ 256 },
    // each literal has its chain of links
    ghost linked: { Linked heads.value (vec_items links) } by { linked_prop heads.value (vec_items links) },
}
