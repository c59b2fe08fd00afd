//! The counts of a shape: an angle and right bends for each dart.
ghost use Rattle.std.specs.Prelude.{◌≡◌, ◌≤◌, length};
ghost use Rattle.finite.specs.Base.{total};
ghost use Rattle.shapes.specs.Counted.{Counted};

/// An angle and right bends for each dart.
#[derive(Clone, Copy)]
pub struct Counts<'a> {
    pub angles: &'a [u8],
    pub rights: &'a [u8],
    ghost counted: { Counted angles.now rights.now },
}

impl Counts<'_> {
    /// The bends of the shape.
    pub fn total(&self) -> u32
        ensures { result ≡ total self.now.rights.now }
    {
        total_bends(self.rights)
    }
}

/// The sum of right bends, of which each counts once.
pub fn total_bends(rights: &[u8]) -> u32
    requires { length rights.now ≤ 256 }
    ensures { result ≡ total rights.now }
{
    rights.iter().map(|bends| u32::from(*bends)).sum()
}
