// A raster over the map: a window of squares, the point that is asked for each, the sign that tells what that point has, and the lines of the picture.
//
//           6 +------+
//             |abb*c.|
//           0 +------+
//              0   12
//
// Row 0 is the northern one. A square shows what its middle has, and nothing else of it.
#![tactic(auto)]

mod fitting;
mod flaw;
mod picture;
mod signs;
mod theorems;
mod window;

pub use fitting::fit;
pub use flaw::Flaw;
pub use signs::sign;
pub use theorems::{every_square_is_asked, fitted_is_drawn};
pub use window::Window;
