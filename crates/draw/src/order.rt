// The words that the program was started with.
use crate::problem::Problem;
use raster::Window;
use std::alloc::Global;
use std::env;

// Which register is drawn, and the window if one was asked for.
#[derive(Drop)]
pub struct Order {
    pub file: String,
    pub window: Option<Window>,
}

fn whole(heap: Global, word: &str) -> Result<u64, Problem> {
    word.parse::<u64>()
        .try_map_err(|_| Ok(Problem::NoNumber(String::from_str(heap, word)?)))
}

// How many squares: a number that does not fit is too large for any picture.
fn count(heap: Global, word: &str) -> Result<u32, Problem> {
    Ok(u32::try_from(whole(heap, word)?).unwrap_or(u32::MAX))
}

fn window(heap: Global, words: &[String]) -> Result<Option<Window>, Problem> {
    match words {
        [] => Ok(None),
        [x, y, step, columns, rows] => {
            let window = Window {
                x: whole(heap, x.as_str())?,
                y: whole(heap, y.as_str())?,
                step: whole(heap, step.as_str())?,
                columns: count(heap, columns.as_str())?,
                rows: count(heap, rows.as_str())?,
            };
            Ok(Some(window.checked()?))
        }
        _ => Err(Problem::Usage),
    }
}

impl Order {
    pub(crate) fn given(rt: &HostRuntime) -> Result<Order, Problem> {
        let heap = rt.alloc();
        let words: Vec<String> = env::args(rt)?.skip(1).collect(heap)?;
        let [file, rest @ ..] = words.as_slice() else {
            return Err(Problem::Usage);
        };
        if file.as_str().starts_with('-') {
            return Err(Problem::Usage);
        }
        let window = window(heap, rest)?;
        Ok(Order {
            file: file.clone()?,
            window,
        })
    }
}
