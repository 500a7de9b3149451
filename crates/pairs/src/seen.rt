// Which points two rings have, and the way that they lie, so far as that goes.
use terms::Way;

#[derive(Clone, Copy, Default)]
pub struct Seen {
    pub inside_both: bool,
    pub inside_first_only: bool,
    pub inside_second_only: bool,
    // A corner or a crossing is on both borders.
    pub on_both: bool,
    // Two edges cross amid both: that is told apart only to count how often grounds lie over each other without.
    pub edges_cross: bool,
}

impl Seen {
    pub(crate) fn note(&mut self, in_first: bool, in_second: bool) {
        match (in_first, in_second) {
            (true, true) => self.inside_both = true,
            (true, false) => self.inside_first_only = true,
            (false, true) => self.inside_second_only = true,
            (false, false) => {}
        }
    }

    pub(crate) fn way(self) -> Way {
        match (
            self.inside_both,
            self.inside_first_only,
            self.inside_second_only,
        ) {
            (true, true, true) => Way::Over,
            (true, true, false) => Way::Around,
            (true, false, true) => Way::Within,
            (true, false, false) => Way::Same,
            (false, _, _) => { if self.on_both { Way::Touch } else { Way::Apart } }
        }
    }
}
