// Asking the machine, and going on till it has ended.
ghost use Rattle.std.specs.Prelude.{◌≡◌, ℕ, true, List, [], ◌∷◌, ◌++◌, length, is_ok};
ghost use Rattle.map.specs.Machine.{own};
ghost use Rattle.map.specs.Asking.{event_said, event_heard, RanThrough};
ghost use Rattle.map.specs.Code.{Takes};

use crate::act::Act;
use crate::event::{Event, Request};
use crate::failing::AskError;
use crate::machine::{MOST_SHOWN, step};
use crate::told::Told;
use std::alloc::AllocError;
use terms::Refusal;

// Takes a step by `step`, the one entry to the machine, so that what is proved of it holds of each request. It tells by numbers, which are read back.
fn stepped(memory: &mut [u64], event: Event<'_>) -> Act
    requires { length memory.old ≡ 262144 }
    ensures { Takes result memory.new (own.step memory.old (event_heard event.entry)) }
{
    let (kind, a, b, c, row) = event.numbers();
    let mut out = [0; MOST_SHOWN];
    match step(memory, kind, a, b, c, row.numbers, &mut out) {
        Told::Shows(_) => Act::Shows(out[0]),
        Told::Done => Act::Done,
        Told::No(number) => {
            let Ok(why) = Refusal::try_from(number) else {
                unreachable!()
            };
            Act::Refused(why)
        }
    }
}

// Adds a number to what was shown, as long as none found no room.
fn keep(shown: &mut Vec<u64>, kept: Result<(), AllocError>, number: u64) -> Result<(), AllocError>
    ensures { (t : List ℕ) × (shown.new.items ≡ shown.old.items ++ t) × (is_ok result ≡ true → (is_ok kept ≡ true) × (t ≡ number ∷ [])) }
{
    kept?;
    shown.push(number)?;
    Ok(())
}

// Goes on with a request till it has ended, and adds what is shown to `shown`. For want of memory something of that may be missing, and only of that.
pub(crate) fn run(
    memory: &mut [u64],
    request: Request<'_>,
    shown: &mut Vec<u64>,
) -> Result<(), AskError>
    requires { length memory.old ≡ 262144 }
    ensures { RanThrough memory.old (event_said request.entry) memory.new shown.old.items shown.new.items result }
{
    let mut kept = Ok(());
    let mut done = stepped(memory, Event::Asked(request));
    while let Act::Shows(number) = done {
        kept = keep(shown, kept, number);
        done = stepped(memory, Event::GoOn);
    }
    kept?;
    match done {
        Act::Refused(why) => Err(AskError::Refused(why)),
        _ => Ok(()),
    }
}
