// What is told of a point by one sign.
ghost use Rattle.std.specs.Prelude.{◌≡◌};
ghost use Rattle.raster.specs.Signs.{letter, sign_of};

// The letter of a ground: a to z for 1 to 26, A to Z for 27 to 52, and then from a on again.
fn letter(number: u64) -> u8
    ensures { result ≡ letter number }
{
    match (number % 52) as u8 {
        0 => b'Z',
        rest @ 1..=26 => b'a' - 1 + rest,
        rest => b'A' - 27 + rest,
    }
}

// A point where no ground is, the letter of the one that is there, or a star for several.
pub fn sign(grounds: &[u64]) -> u8
    ensures { result ≡ sign_of grounds.now }
{
    match grounds {
        [] => b'.',
        [number] => letter(*number),
        _ => b'*',
    }
}
