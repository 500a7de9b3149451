// What is told of three corners: how they turn, or that they were refused. No `Result`, and the refusal by its number: others call this entry by numbers alone.
#[derive(Clone, Copy, PartialEq, Eq, Debug)]
pub enum Reply {
    Left,
    Right,
    Straight,
    // The number of the refusal.
    Refused(u64),
}
