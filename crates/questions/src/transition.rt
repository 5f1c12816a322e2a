// A state and the state after a step from it.
#[derive(Clone, Copy, PartialEq, Eq, Debug)]
pub struct Transition {
    pub state: u32,
    pub successor: u32,
}
