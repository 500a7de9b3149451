// The marks of a line: numbers, the word `polygon`, and signs.
#[derive(Clone, Copy, PartialEq, Eq, Debug)]
pub enum Mark {
    Number(u64),
    Polygon,
    Comma,
    Colon,
    Open,
    Close,
}
