//! The steps of the editor's journal: a plate by value goes in and comes back with its verdict.
ghost use Rattle.std.specs.Prelude.{◌≡◌, ◌==◌, position, true, ◌||◌, not, List, [], ◌∷◌, ℕ, ◌+◌, ◌%◌, ◌<◌, ◌≤◌, length};
ghost use Rattle.refusals.specs.Numbers.{fault_of};
ghost use Rattle.embedding.specs.Plates.{Plate as PlateOf, distinct, ends_at, first_of, when};
ghost use Rattle.embedding.specs.Read.{meant, Reads};
ghost use Rattle.embedding.specs.Edits.{put_before, renamed, split, split_fault, hang, hang_fault, join, join_fault, full, taken, no_face, no_post, no_strip};
ghost use Rattle.embedding.specs.Arrays.{Front, Appended, Listed};
ghost use Rattle.embedding.specs.Journal.{EditedTo, SteppedTo, step_fault, stepped};

use crate::{Plate, read_plate, twin_of};
use refusals::Refusal;

// A step of the journal.
#[derive(Clone, Copy)]
pub enum Step {
    Split(usize),
    Hang(usize),
    Join(usize, usize),
}

// The plate after a step, or the plate before it and the refusal. No `Result` of a plate: document 01 asks that a step hand the plate back with its verdict.
#[derive(Clone, Copy)]
pub struct Edited {
    pub plate: Plate,
    pub verdict: Result<(), Refusal>,
}

// `s` written from `at` on.
// An array and no list of fixed capacity: the steps write into copies of the plate's arrays, whose places behind the darts are 0.
pub fn append(list: [u8; 256], at: usize, s: &[u8]) -> [u8; 256]
    requires { at + length s.now ≤ 256 }
    ensures { Appended at s.now list result }
{
    let mut all = list;
    all[at..at + s.len()].copy_from_slice(s);
    all
}

// Where `x` stands first, if it does.
fn find(x: u8, s: &[u8]) -> Option<usize>
    ensures { result ≡ position (λ y. x == y) s.now }
{
    s.iter().position(|y| x == *y)
}

// `y` for `x` among the first elements, where it stands once.
fn replace(list: [u8; 256], long: usize, x: u8, y: u8) -> [u8; 256]
    requires { long ≤ 256 }
    ensures { (l : List ℕ) → Front l list → length l ≡ long → distinct l ≡ true → Front (renamed x y l) result }
{
    let mut all = list;
    if let Some(at) = find(x, &list[..long]) {
        all[at] = y;
    }
    all
}

// `y` just before `x`.
fn put_before(x: u8, y: u8, s: &[u8]) -> [u8; 256]
    requires { length s.now < 256 }
    ensures { Front (put_before x y s.now) result }
{
    match find(x, s) {
        Some(at) => {
            let before = append([0; 256], 0, &s[..at]);
            let with = append(before, at, &[y]);
            append(with, at + 1, &s[at..])
        }
        None => append([0; 256], 0, s),
    }
}

// The plate that the first `darts` elements of each list make.
fn read_more(
    posts: u8,
    darts: usize,
    ends: &[u8],
    order: &[u8],
    outer: u8,
) -> Result<Plate, Refusal>
    requires { (darts ≤ 256) × (darts % 2 ≡ 0) × (length ends.now ≡ 256) × (length order.now ≡ 256) }
    ensures { (p : PlateOf) → p.posts ≡ posts → p.outer ≡ outer → Listed p darts ends.now order.now → Reads p result }
{
    read_plate(posts, &ends[..darts], &order[..darts], outer)
}

// The plate after a step, or the one before it with the refusal.
fn handed_back(before: Plate, after: Result<Plate, Refusal>) -> Edited
    ensures { (fault : ℕ) (p : PlateOf) → SteppedTo fault p after → EditedTo fault p before result }
{
    match after {
        Ok(plate) => Edited {
            plate,
            verdict: Ok(()),
        },
        Err(refusal) => Edited {
            plate: before,
            verdict: Err(refusal),
        },
    }
}

impl Plate {
    // The clockwise darts of all posts, one post after the other.
    pub fn order(self) -> [u8; 256]
        ensures { Front (meant self).order result }
    {
        let mut all = [0; 256];
        let mut at = 0;
        for v in 0..self.posts {
            let degree = usize::from(self.degrees[v]);
            let from = 4 * v;
            let to = from + degree;
            // Two lines: the check does not cover `all = append(all, ..)`.
            let more = append(all, at, &self.places[from..to]);
            all = more;
            at += degree;
        }
        all
    }

    // 36: a post or a strip too many.
    fn check_new_post(self) -> Result<(), Refusal>
        ensures { fault_of result ≡ when (no_post (meant self) || no_strip (meant self)) 36 }
    {
        if 64 <= self.posts || 128 <= self.darts / 2 {
            return Err(Refusal::PlateFull);
        }
        Ok(())
    }

    // The post where `d` ends.
    fn end_post(self, d: usize) -> usize
        requires { d < self.darts }
        ensures { (result ≡ ends_at (meant self) d) × (result < 64) }
    {
        usize::from(self.ends[twin_of(d)])
    }

    // Whether `more` places are more than are left at the post where `d` ends.
    fn is_full(self, d: usize, more: usize) -> bool
        requires { (d < self.darts) × (more ≤ 2) }
        ensures { result ≡ full (meant self) (ends_at (meant self) d) more }
    {
        let v = self.end_post(d);
        4 < usize::from(self.degrees[v]) + more
    }

    // How many places a join takes at the post where `d` ends. Its darts are no struct: they are the two numbers of `Step::Join`.
    fn taken_at(self, d: usize, e: usize) -> usize
        requires { (d < self.darts) × (e < self.darts) }
        ensures { (result ≡ taken (meant self) d e) × (result ≤ 2) }
    {
        if self.end_post(d) == self.end_post(e) {
            2
        } else {
            1
        }
    }

    // Whether two darts are there, different and of one face.
    fn one_face(self, d: usize, e: usize) -> bool
        ensures { result ≡ not (no_face (meant self) d e) }
    {
        d < self.darts && e < self.darts && d != e && self.face[d] == self.face[e]
    }

    // 35: no such strip; 36: a post or a strip too many.
    fn check_split(self, strip: usize) -> Result<(), Refusal>
        ensures { fault_of result ≡ split_fault (meant self) strip }
    {
        if self.darts / 2 <= strip {
            return Err(Refusal::NoSuchStep);
        }
        self.check_new_post()
    }

    // 35: no such dart; 36: a post or a strip too many; 37: no place left at the post where `d` ends.
    fn check_hang(self, d: usize) -> Result<(), Refusal>
        ensures { fault_of result ≡ hang_fault (meant self) d }
    {
        if self.darts <= d {
            return Err(Refusal::NoSuchStep);
        }
        self.check_new_post()?;
        if self.is_full(d, 1) {
            return Err(Refusal::PostFull);
        }
        Ok(())
    }

    // 35: no such darts, or darts that are equal or of two faces; 36: a strip too many; 37: no place left at one of their posts.
    fn check_join(self, d: usize, e: usize) -> Result<(), Refusal>
        ensures { fault_of result ≡ join_fault (meant self) d e }
    {
        if !self.one_face(d, e) {
            return Err(Refusal::NoSuchStep);
        }
        if 128 <= self.darts / 2 {
            return Err(Refusal::PlateFull);
        }
        let more = self.taken_at(d, e);
        if self.is_full(d, more) {
            return Err(Refusal::PostFull);
        }
        if self.is_full(e, more) {
            return Err(Refusal::PostFull);
        }
        Ok(())
    }

    // Strip `strip` now ends at a new post, and a new strip runs from there to its old end.
    fn split_plate(self, strip: usize) -> Result<Plate, Refusal>
        ensures { SteppedTo (split_fault (meant self) strip) (split (meant self) strip) result }
    {
        self.check_split(strip)?;
        let darts = self.darts;
        let back = 2 * strip + 1;
        // `as`: posts and darts are below 256, and `try_from` would test it again.
        let (post, old, new) = (self.posts as u8, back as u8, darts as u8);
        let renamed = replace(self.order(), darts, old, new + 1);
        let new_order = append(renamed, darts, &[old, new]);
        let mut ends = self.ends;
        let end = ends[back];
        ends[back] = post;
        let new_ends = append(ends, darts, &[post, end]);
        read_more(post + 1, darts + 2, &new_ends, &new_order, self.outer)
    }

    // A new strip to a new post, in the corner where dart `d` ends.
    fn hang_plate(self, d: usize) -> Result<Plate, Refusal>
        ensures { SteppedTo (hang_fault (meant self) d) (hang (meant self) d) result }
    {
        self.check_hang(d)?;
        let darts = self.darts;
        let t = twin_of(d);
        // `as`: posts and darts are below 256, and `try_from` would test it again.
        let (post, twin, new) = (self.posts as u8, t as u8, darts as u8);
        let order = self.order();
        let with = put_before(twin, new, &order[..darts]);
        let new_order = append(with, darts + 1, &[new + 1]);
        let new_ends = append(self.ends, darts, &[self.ends[t], post]);
        read_more(post + 1, darts + 2, &new_ends, &new_order, self.outer)
    }

    // A new strip from the corner where dart `d` ends to the corner where dart `e` ends.
    fn join_plate(self, d: usize, e: usize) -> Result<Plate, Refusal>
        ensures { SteppedTo (join_fault (meant self) d e) (join (meant self) d e) result }
    {
        self.check_join(d, e)?;
        let darts = self.darts;
        let t = twin_of(d);
        let u = twin_of(e);
        // `as`: posts and darts are below 256, and `try_from` would test it again.
        let (posts, new) = (self.posts as u8, darts as u8);
        let order = self.order();
        let half = put_before(u as u8, new + 1, &order[..darts]);
        let new_order = put_before(t as u8, new, &half[..darts + 1]);
        let new_ends = append(self.ends, darts, &[self.ends[t], self.ends[u]]);
        read_more(posts, darts + 2, &new_ends, &new_order, self.outer)
    }

    // `split`, `hang` and `join` stay three: document 01 names them. One function of the step is `apply`.

    // Strip `strip` ends at a new post, and a new strip runs from there to its old end.
    pub fn split(self, strip: usize) -> Edited
        ensures { EditedTo (split_fault (meant self) strip) (split (meant self) strip) self result }
    {
        handed_back(self, self.split_plate(strip))
    }

    // A new strip to a new post, in the corner where dart `d` ends.
    pub fn hang(self, d: usize) -> Edited
        ensures { EditedTo (hang_fault (meant self) d) (hang (meant self) d) self result }
    {
        handed_back(self, self.hang_plate(d))
    }

    // A new strip from the corner where dart `d` ends to the corner where dart `e` ends.
    pub fn join(self, d: usize, e: usize) -> Edited
        ensures { EditedTo (join_fault (meant self) d e) (join (meant self) d e) self result }
    {
        handed_back(self, self.join_plate(d, e))
    }

    // One step of the journal.
    pub fn apply(self, step: Step) -> Edited
        ensures { EditedTo (step_fault (meant self) step) (stepped (meant self) step) self result }
    {
        match step {
            Step::Split(strip) => self.split(strip),
            Step::Hang(d) => self.hang(d),
            Step::Join(d, e) => self.join(d, e),
        }
    }
}
