//! The strips gone over once: refusals 9 and 11 and the degrees of the posts. The pass may stop after any strip and go on later.
ghost use Rattle.std.specs.Prelude.{◌≡◌, ◌≤◌};
ghost use Rattle.refusals.specs.Numbers.{fault_of};
ghost use Rattle.embedding.specs.Pass.{no_strips, add_end, add_strip, GoneOn, Answered};

use refusals::Refusal;

// What was met so far: an end that is no post (9), a fifth place taken at a post (11).
// And how many places are taken at each post, one by each strip end, counted up to four.
// Two marks and not a `Result`: 9 wins over 11 though 11 may be met first. An array: the library allocates nothing.
// How many posts there are goes beside it, and each function asks that they fit: the state of the definitions does not hold it.
#[derive(Clone, Copy)]
pub struct Strips {
    pub stray: bool,
    pub over: bool,
    pub degrees: [u8; 64],
}

// No strip gone over.
#[tactic(auto, unfolding(crate::specs::Pass::no_strips))]
pub fn no_strips() -> Strips
    ensures { result ≡ no_strips }
{
    Strips {
        stray: false,
        over: false,
        degrees: [0; 64],
    }
}

// One strip end, at `v`.
fn add_end(posts: usize, s: &mut Strips, v: usize)
    requires { posts ≤ 64 }
    ensures { s.new ≡ add_end posts v s.old }
{
    if posts <= v {
        s.stray = true;
        return;
    }
    let count = s.degrees[v];
    if 4 <= count {
        s.over = true;
        return;
    }
    s.degrees[v] = count + 1;
}

// One strip, from `a` to `b`.
fn add_strip(posts: usize, s: &mut Strips, a: usize, b: usize)
    requires { posts ≤ 64 }
    ensures { s.new ≡ add_strip posts a b s.old }
{
    add_end(posts, s, a);
    add_end(posts, s, b);
}

// The strips of `rest` after those that `s` is the state of.
pub fn go_on(posts: usize, s: Strips, rest: &[u8]) -> Strips
    requires { posts ≤ 64 }
    ensures { GoneOn posts s rest.now result }
{
    let mut r = s;
    let (strips, _) = rest.as_chunks::<2>();
    for strip in strips {
        add_strip(posts, &mut r, usize::from(strip[0]), usize::from(strip[1]));
    }
    r
}

// 9 or 11: 9 wins, whichever was met first.
pub fn answer(s: Strips) -> Result<(), Refusal>
    ensures { Answered s (fault_of result) }
{
    if s.stray {
        return Err(Refusal::EndNotAPost);
    }
    if s.over {
        return Err(Refusal::OverFourPlaces);
    }
    Ok(())
}
