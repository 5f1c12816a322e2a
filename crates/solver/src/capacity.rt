// The two capacities of a solver: how many clauses fit, and how many literals in all, each counted as often as it stands
// in a clause.
#[derive(Clone, Copy, PartialEq, Eq, Debug)]
pub struct Capacity {
    pub clauses: usize,
    pub literals: usize,
}

// A clause does not fit within the capacities.
#[derive(Clone, Copy, PartialEq, Eq, Debug)]
pub struct NoCapacity;
