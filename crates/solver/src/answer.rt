// Yes with a model, the values of variables 0 to 63 and 64 to 127, each lowest bit first; or no.
// It stays an enum of its own, whose yes carries the two numbers of the model: a form that the project fixes (docs/DECISIONS.md).
#[derive(Clone, Copy, PartialEq, Eq, Debug)]
pub enum Answer {
    Yes(u64, u64),
    No,
}
