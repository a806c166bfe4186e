// A call of a record, with its arguments: a value and no closure, since the law is about lists of calls.
#[derive(Clone, Copy, Debug, PartialEq, Eq)]
pub enum Call {
    // The numbers of start and end, each left out or any number.
    Anchor(Option<i32>, Option<i32>),
    Take(i16),
    Rewind(usize),
    Settle,
    Resume,
    // The length of the buffer, and the place.
    Report(usize, usize),
    // The lengths of the two rows.
    Weigh(usize, usize),
}
