// What is judged of a case: nothing yet, that its safety list holds in every run, or that a run breaks it, which either
// begins and ends with an initial state that was found at opening, or is that of the book's last entry.
#[derive(Clone, Copy, PartialEq, Eq, Debug)]
pub enum Verdict {
    Undecided,
    Holds,
    BrokenAt(u32),
    BrokenByEntry,
}

// What a look at a work shows.
#[derive(Clone, Copy, PartialEq, Eq, Debug)]
pub struct Look {
    // What was judged of the case.
    pub verdict: Verdict,
    // How many places of the book are used.
    pub used: usize,
    // How many places the book has.
    pub places: usize,
}
