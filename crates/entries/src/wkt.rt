// A ground as well-known text, under its number.
ghost use Rattle.std.specs.Prelude.{◌≡◌, ℕ, ◌++◌, take, decimal, IfOk, string_bytes};
ghost use Rattle.entries.specs.Wkt.{coordinate, coordinates, wkt};

use std::alloc::{AllocError, Global};

// The row with its first corner again at the end.
fn closed_ring(heap: Global, row: &[u64]) -> Result<Vec<u64>, AllocError>
    ensures { IfOk result (λ v. v.items ≡ row.now ++ take 2 row.now) }
{
    let mut ring = Vec::from_slice(heap, row)?;
    ring.extend_from_slice(&row[..row.len().min(2)])?;
    Ok(ring)
}

// What stands before number `i` of a ring. By its place, and not corner by corner: a row with a number left over is written too.
fn gap(i: usize) -> &'static str
    ensures { (x : ℕ) → result.now ++ decimal x ≡ coordinate i x }
{
    match i {
        0 => "",
        _ if i % 2 == 0 => ", ",
        _ => " ",
    }
}

fn ring_text(heap: Global, ring: &[u64]) -> Result<String, AllocError>
    ensures { IfOk result (λ s. string_bytes s ≡ coordinates 0 ring.now) }
{
    let mut out = String::new(heap);
    for (i, x) in ring.iter().enumerate() {
        let gap = gap(i);
        write!(out, "{gap}{x}")?;
    }
    Ok(out)
}

// `17 POLYGON((120 400, 180 420, 150 470, 120 400))`, of the row that goes round once. A text and no `Display`: the ring is closed first, which takes memory.
pub fn write_wkt(heap: Global, number: u64, row: &[u64]) -> Result<String, AllocError>
    ensures { IfOk result (λ s. string_bytes s ≡ wkt number row.now) }
{
    let ring = closed_ring(heap, row)?;
    let corners = ring_text(heap, ring.as_slice())?;
    format!(in heap; "{number} POLYGON(({corners}))")
}
