// What a line of a register is.

// A ground under its number: two numbers for each corner.
#[derive(PartialEq, Eq, Debug, Drop)]
pub struct Ground {
    pub number: u64,
    pub row: Vec<u64>,
}
