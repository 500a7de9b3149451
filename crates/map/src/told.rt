// What one step of the machine tells. No `Result`, and a refusal by its number: a step is taken through an interface of plain numbers.
#[derive(Clone, Copy, PartialEq, Eq, Debug)]
pub enum Told {
    // So many numbers, at the front of the row that was lent for them.
    Shows(u64),
    Done,
    // The number of the refusal.
    No(u64),
}
