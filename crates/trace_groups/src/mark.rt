// A trace that has a problem.
#[derive(Clone, Copy)]
pub(crate) struct Mark {
    // The trace, from 1.
    pub(crate) position: u32,
    // What its problem says of it.
    pub(crate) facts: (i128, i128),
}
