// The words of a line: names, whole numbers, and fractions in lowest terms.

// A word that the commands are named with.
#[derive(Clone, Copy, PartialEq, Eq, Debug)]
pub enum Name {
    Put,
    Drop,
    At,
    Point,
    How,
    Lie,
    All,
    That,
    On,
    Area,
    Of,
    Help,
    Quit,
}

// One word as it was understood.
#[derive(Clone, Copy, PartialEq, Eq, Debug)]
pub enum Word {
    Named(Name),
    Whole(u64),
    // Written as a fraction or as a decimal; in lowest terms.
    Fraction { over: u64, under: u64 },
}
