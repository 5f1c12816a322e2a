// What a turn of the search comes to, while something can be true: all is true, or it goes on.
#[derive(Clone, Copy, PartialEq, Eq, Debug)]
pub(crate) enum Progress {
    Satisfied,
    Further,
}

// That nothing can be true.
#[derive(Clone, Copy, PartialEq, Eq, Debug)]
pub(crate) struct Unsatisfiable;
