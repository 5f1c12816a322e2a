// A state, the state after a step from it, and the number of the target there: that of a safety clause, or 256 and that of a
// subgoal.
#[derive(Clone, Copy, PartialEq, Eq, Debug)]
pub struct Counterexample {
    pub state: u32,
    pub successor: u32,
    pub target: u16,
}
