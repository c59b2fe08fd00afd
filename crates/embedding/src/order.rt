//! The order field: each post's darts in four places, and the dart after each.
ghost use Rattle.std.specs.Prelude.{◌≡◌, true, List, [], ℕ, ◌+◌, ◌*◌, ◌/◌, ◌%◌, ◌<◌, ◌≤◌, length, get_or};
ghost use Rattle.finite.specs.Tables.{Table, up_to};
ghost use Rattle.embedding.specs.Plates.{all_below, distinct, all_leave, plate, last_of, just_before};
ghost use Rattle.embedding.specs.Steps.{Few, PostRead, OrderRead, after_in};

use crate::reading::Lists;
use crate::twin_of;

// Whether no dart stands twice in `s`.
fn all_distinct(s: &[u8]) -> bool
    ensures { result ≡ distinct s.now }
{
    s.iter().enumerate().all(|(i, d)| !s[i + 1..].contains(d))
}

// Whether each of the darts of `s` is one of the plate and leaves post `v`.
fn all_leave(ends: &[u8], v: usize, s: &[u8]) -> bool
    ensures { (n : ℕ) (o : List ℕ) (x : ℕ) → result ≡ all_leave (plate n ends.now o x) v s.now }
{
    s.iter().all(|d| usize::from(*d) < ends.len() && usize::from(ends[usize::from(*d)]) == v)
}

// The bytes of `s`, and 0 behind them.
pub fn padded<const N: usize>(s: &[u8]) -> [u8; N]
    requires { length s.now ≤ N }
    ensures { Table N (λ i. get_or s.now i 0) result }
{
    let mut all = [0; N];
    all[..s.len()].copy_from_slice(s);
    all
}

// The part of post `v`: its darts, each leaving it, none twice.
fn read_post(ends: &[u8], v: usize, part: &[u8]) -> Option<[u8; 4]>
    requires { length part.now ≤ 4 }
    ensures { PostRead ends.now v part.now result }
{
    if all_leave(ends, v, part) && all_distinct(part) {
        Some(padded(part))
    } else {
        None
    }
}

// The rows one after the other.
fn flatten(rows: [[u8; 4]; 64]) -> [u8; 256]
    ensures { Table 256 (λ i. get_or (get_or rows (i / 4) []) (i % 4) 0) result }
{
    let mut all = [0; 256];
    for (v, row) in rows.iter().enumerate() {
        all[4 * v..4 * v + 4].copy_from_slice(row);
    }
    all
}

impl Lists<'_> {
    // The order field, post by post.
    pub fn read_order(&self, degrees: [u8; 64]) -> Option<[u8; 256]>
        requires { (self.now.posts ≤ 64) × (length self.now.order.now ≡ length self.now.ends.now) × Few self.now.posts self.now.ends.now degrees }
        ensures { OrderRead self.now.posts self.now.ends.now self.now.order.now result }
    {
        let mut rows = [[0u8; 4]; 64];
        let mut at = 0;
        for v in 0..self.posts {
            let end = at + usize::from(degrees[v]);
            rows[v] = read_post(self.ends, v, &self.order[at..end])?;
            at = end;
        }
        Some(flatten(rows))
    }
}

// The element of `s` just before `x`, the last before the first.
fn before_in(x: usize, s: &[u8]) -> u8
    ensures { result ≡ just_before x (last_of s.now) s.now }
{
    // A `for`: at the front the answer is the last element, so `position` would need a case more.
    let mut prev = s.last().copied().unwrap_or(0);
    for here in s {
        if x == usize::from(*here) {
            return prev;
        }
        prev = *here;
    }
    prev
}

// The posts of the strip ends, and the darts of each post. Arrays: the library allocates nothing.
#[derive(Clone, Copy)]
pub struct Ordered<'a> {
    pub posts: usize,
    pub ends: &'a [u8],
    pub places: [u8; 256],
    pub degrees: [u8; 64],
    pub ghost some: { 0 < posts },
    pub ghost few: { posts ≤ 64 },
    pub ghost short: { length ends.now ≤ 256 },
    pub ghost even: { length ends.now % 2 ≡ 0 },
    pub ghost below: { all_below posts ends.now ≡ true },
    pub ghost four: { (v : ℕ) → get_or degrees v 0 ≤ 4 },
}

impl Ordered<'_> {
    // The post of strip end `i`.
    pub fn post_at(&self, i: usize) -> usize
        requires { i < length self.now.ends.now }
        ensures { (result ≡ get_or self.now.ends.now i 0) × (result < self.now.posts) }
    {
        usize::from(self.ends[i])
    }

    // The dart after `d` on its face: the one just before its twin where it ends.
    fn after(&self, d: usize) -> u8
        requires { d < length self.now.ends.now }
        ensures { result ≡ after_in self.now.ends.now self.now.places self.now.degrees d }
    {
        let t = twin_of(d);
        let v = self.post_at(t);
        let from = 4 * v;
        let to = from + usize::from(self.degrees[v]);
        before_in(t, &self.places[from..to])
    }

    // The dart after each dart.
    pub fn next_darts(&self) -> [u8; 256]
        ensures { Table 256 (up_to (length self.now.ends.now) (after_in self.now.ends.now self.now.places self.now.degrees)) result }
    {
        let mut next = [0; 256];
        for d in 0..self.ends.len() {
            next[d] = self.after(d);
        }
        next
    }
}
