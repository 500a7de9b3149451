// The lines of a picture: a frame around the rows of signs, and how far in the north and in the east its sides lie.
ghost use Rattle.std.specs.Prelude.{◌≡◌, IfOk, string_bytes};
ghost use Rattle.raster.specs.Pictures.{margin, row_line, frame_line, scale_line};
ghost use Rattle.raster.specs.Windows.{side_up};

use crate::window::Window;
use std::alloc::{AllocError, Global};

// Of the rows every fifth has its height before it.
const EVERY: u32 = 5;

impl Window {
    // What stands before a row.
    fn margin(self, heap: Global, row: u32) -> Result<String, AllocError>
        ensures { IfOk result (λ s. string_bytes s ≡ margin self row) }
    {
        if row > 0 && row % EVERY == 0 {
            let height = self.side_up(row);
            return format!(in heap; "{height:>7}");
        }
        String::from_str(heap, "       ")
    }

    // A row of signs in its frame.
    pub fn row_line(self, heap: Global, row: u32, signs: &[u8]) -> Result<Vec<u8>, AllocError>
        ensures { IfOk result (λ v. v.items ≡ row_line self row signs.now) }
    {
        let mut line = self.margin(heap, row)?.into_bytes();
        line.extend_from_slice(b" |")?;
        line.extend_from_slice(signs)?;
        line.extend_from_slice(b"|\n")?;
        Ok(line)
    }

    fn frame_line(self, heap: Global, height: u128) -> Result<String, AllocError>
        ensures { IfOk result (λ s. string_bytes s ≡ frame_line self height) }
    {
        let side = "-".repeat(heap, self.columns as usize)?;
        format!(in heap; "{height:>7} +{side}+\n")
    }

    // The frame above the first row.
    pub fn north_line(self, heap: Global) -> Result<String, AllocError>
        ensures { IfOk result (λ s. string_bytes s ≡ frame_line self (side_up self 0)) }
    {
        self.frame_line(heap, self.side_up(0))
    }

    // The frame below the last row.
    pub fn south_line(self, heap: Global) -> Result<String, AllocError>
        ensures { IfOk result (λ s. string_bytes s ≡ frame_line self self.y) }
    {
        self.frame_line(heap, self.y as u128)
    }

    // How far in the east the sides lie: the last line of a picture.
    pub fn scale_line(self, heap: Global) -> Result<String, AllocError>
        ensures { IfOk result (λ s. string_bytes s ≡ scale_line self) }
    {
        let west = self.x.to_string(heap)?;
        let east = self.side_across(self.columns).to_string(heap)?;
        let between = (self.columns as usize).saturating_sub(west.len() + east.len());
        let gap = " ".repeat(heap, between.max(1))?;
        format!(in heap; "         {west}{gap}{east}\n")
    }
}
