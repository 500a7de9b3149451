// The window that shows a box best.
ghost use Rattle.std.specs.Prelude.{◌≡◌, ◌*◌, ◌≤◌, max};
ghost use Rattle.ground.specs.Boxes.{raised};
ghost use Rattle.raster.specs.Fitting.{Fitted};

use crate::window::Window;
use ground::Extent;

// The most squares of a window that is fitted to a box.
const MOST_COLUMNS: u64 = 78;

const MOST_ROWS: u64 = 36;

// How many squares of this step a length takes, one at least.
#[tactic(auto, using(crate::proofs::Counting::enough_steps))]
fn squares(length: u64, step: u64) -> u32
    requires some { 1 ≤ step }
    requires few { length ≤ 78 * step }
    ensures { result ≡ max (raised length step) 1 }
{
    length.div_ceil(step).max(1) as u32
}

// The window around a box whose squares are the smallest with which 78 columns and 36 rows suffice.
pub fn fit(extent: Extent) -> Window
    ensures { Fitted extent result }
{
    let width = extent.east.saturating_sub(extent.west);
    let height = extent.north.saturating_sub(extent.south);
    let step = width
        .div_ceil(MOST_COLUMNS)
        .max(height.div_ceil(MOST_ROWS))
        .max(1);
    Window {
        x: extent.west,
        y: extent.south,
        step,
        columns: squares(width, step),
        rows: squares(height, step),
    }
}
