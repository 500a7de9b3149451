// What a line comes to.
#[derive(PartialEq, Eq, Debug, Drop)]
pub enum Outcome {
    // What is answered.
    Text(Vec<u8>),
    // An empty line is answered nothing.
    Silence,
    Help,
    Quit,
}
