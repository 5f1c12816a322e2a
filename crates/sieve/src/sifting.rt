// What one sifting says: the marks are closed, or some were taken away.
#[derive(Clone, Copy, PartialEq, Eq, Debug)]
pub enum Sifting {
    Closed,
    Fewer,
}
