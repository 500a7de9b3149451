// What the machine does at an event.
ghost use Rattle.std.specs.Prelude.{◌≡◌, ◌≤◌, length};
ghost use Rattle.map.specs.Entry.{ActTold};
ghost use Rattle.map.specs.Code.{act_of};

use crate::told::Told;
use terms::Refusal;

#[derive(Clone, Copy, PartialEq, Eq, Debug)]
pub enum Act {
    // A row of one number.
    Shows(u64),
    Done,
    Refused(Refusal),
}

impl Act {
    // Tells the world outside; what is shown goes to the front of a lent row.
    #[tactic(auto, unfolding(crate::specs::Entry::ActTold))]
    pub(crate) fn told(self, out: &mut [u64]) -> Told
        requires { 1 ≤ length out.old }
        ensures { ActTold (act_of self) result out.old out.new }
    {
        match self {
            Act::Shows(number) => {
                out[0] = number;
                Told::Shows(1)
            }
            Act::Done => Told::Done,
            Act::Refused(why) => Told::No(u64::from(why)),
        }
    }
}
