// What a point with fractions sees of an edge.
#[derive(Clone, Copy, PartialEq, Eq, Debug)]
pub enum Sight {
    // The point is on the edge.
    Border,
    // The way from the point straight to the east crosses the edge.
    Crossed,
    Missed,
}
