// What stands at a place of a walk. Three cases, two of which end the walk: an Option of a Result names none of them.
#[derive(Clone, Copy)]
pub enum WalkStep<T> {
    // Nothing more.
    End,
    // What stands there is not whole.
    Malformed,
    // An entry, and the place behind it.
    Entry(T, usize),
}
