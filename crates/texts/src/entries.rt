//! Words and entries of a text as the code holds them.
ghost use Rattle.std.specs.Prelude.{◌≡◌, ◌&&◌, ltb};

/// A word, by how many right and left bends it has.
#[derive(Clone, Copy)]
pub struct Word {
    pub right: u8,
    pub left: u8,
}

impl Word {
    /// Whether it has both digits.
    pub fn is_mixed(&self) -> bool
        ensures { result ≡ (ltb 0 self.now.right && ltb 0 self.now.left) }
    {
        0 < self.right && 0 < self.left
    }
}

/// An entry: its dart, its word, its angle, and whether it ends its line.
#[derive(Clone, Copy)]
pub struct Entry {
    pub dart: usize,
    pub word: Word,
    pub angle: u8,
    pub last: bool,
}
