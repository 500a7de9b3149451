// How often the two ways of looking were asked, and how often they differed.
use std::fmt;

#[derive(Clone, Copy, Default)]
pub struct Tally {
    rows: u64,
    grounds: u64,
    points: u64,
    within: u64,
    differ: u64,
}

impl Tally {
    pub(crate) fn row(&mut self, is_ground: bool) {
        self.rows = self.rows.wrapping_add(1);
        self.grounds = self.grounds.wrapping_add(u64::from(is_ground));
    }

    // A point was asked both ways; `None` from the proved one says that it was out of range.
    pub(crate) fn point(&mut self, proved: Option<bool>, second: bool) {
        self.points = self.points.wrapping_add(1);
        self.within = self.within.wrapping_add(u64::from(second));
        self.differ = self.differ.wrapping_add(u64::from(proved != Some(second)));
    }
}

impl fmt::Display for Tally {
    fn fmt<W: fmt::Write>(&self, f: &mut fmt::Formatter<W>) -> fmt::Result {
        write!(
            f,
            "{} rows, {} of them grounds; {} points asked both ways, {} of them in the ground; {} answers differ",
            self.rows, self.grounds, self.points, self.within, self.differ
        )
    }
}
