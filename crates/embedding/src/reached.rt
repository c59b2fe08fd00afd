//! The posts reached from post 0.
ghost use Rattle.std.specs.Prelude.{◌≡◌, List, [], ◌∷◌, ℕ, ◌<◌, ◌≤◌, length};
ghost use Rattle.embedding.specs.Plates.{reach, plate};
ghost use Rattle.embedding.specs.Steps.{Joined, RoundMade};

use crate::order::Ordered;

// The posts reached, and how many: counting the marks anew would go over all of them after each round. An array: the library allocates nothing.
#[derive(Clone, Copy)]
pub struct Seen {
    pub seen: [bool; 64],
    pub count: usize,
}

// One strip: where one of its posts is seen, both are.
fn join(s: &mut Seen, a: usize, b: usize)
    requires { (a < 64) × (b < 64) × (s.old.count < 1000) }
    ensures { Joined a b s.old s.new }
{
    if s.seen[a] != s.seen[b] {
        s.seen[a] = true;
        s.seen[b] = true;
        s.count += 1;
    }
}

impl Ordered<'_> {
    // Every strip once.
    fn round(&self, s: &mut Seen)
        requires { s.old.count ≤ 64 }
        ensures { RoundMade self.now.ends.now s.old s.new }
    {
        let (strips, _) = self.ends.as_chunks::<2>();
        for strip in strips {
            join(s, usize::from(strip[0]), usize::from(strip[1]));
        }
    }

    // How many posts are reached from post 0: rounds until one adds nothing.
    pub fn reach_count(&self) -> usize
        ensures { (o : List ℕ) (x : ℕ) → result ≡ length (reach self.now.posts (plate self.now.posts self.now.ends.now o x) (0 ∷ [])) }
    {
        let mut seen = [false; 64];
        seen[0] = true;
        let mut s = Seen { seen, count: 1 };
        // A loop: how many rounds there are is known only when one adds nothing.
        loop {
            let before = s.count;
            self.round(&mut s);
            if s.count == before {
                return before;
            }
        }
    }
}
