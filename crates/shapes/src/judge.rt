//! The verdict on a shape given as counts: refusals 19, 20 and 21.
ghost use Rattle.std.specs.Prelude.{◌≡◌, ℕ, true, ◌≤◌, ◌<◌, length, get_or};
ghost use Rattle.finite.specs.Tables.{Table};
ghost use Rattle.embedding.specs.Plates.{all_below, faces};
ghost use Rattle.embedding.specs.Read.{meant};
ghost use Rattle.refusals.specs.Numbers.{fault_of};
ghost use Rattle.shapes.specs.Shapes.{angles_ok, posts_ok, faces_ok, shape_of};
ghost use Rattle.shapes.specs.Judge.{judgement, group_sum, post_angles, face_plus, face_minus, all_four, turns_ok, all_turn};

use crate::counts::Counts;
use crate::rates::all_between;
use embedding::{Plate, twin_of};
use refusals::Refusal;

// For each dart its post or its face, one of `N`.
#[derive(Clone, Copy)]
struct Keys<'a, const N: usize> {
    by_dart: &'a [u8],
    ghost long: { length by_dart.now ≡ 256 },
    ghost below: { all_below N by_dart.now ≡ true },
}

impl<const N: usize> Keys<'_, N> {
    // The post or the face of dart `d`.
    fn of(self, d: usize) -> usize
        requires { d < 256 }
        ensures { (result ≡ get_or self.entry.by_dart.now d 0) × (result < N) }
    {
        usize::from(self.by_dart[d])
    }
}

// Is each angle 1 to 4? Like `prices_ok` but for the range: each is the name of a definition.
fn angles_ok(s: &[u8]) -> bool
    ensures { result ≡ angles_ok s.now }
{
    all_between(s, 1, 4)
}

// For each of `N` keys the sum over the darts that have it. `at` gives a dart's key and its number.
fn group_sum<const N: usize, F: Fn(usize) -> (usize, u32)>(darts: usize, at: F) -> [u32; N]
    requires few { darts ≤ 256 }
    requires given { (d : ℕ) → d < darts → F.pre at d }
    requires small { (d : ℕ) (r : _) → d < darts → F.post at d r → (r.0 < N) × (r.1 ≤ 512) }
    ensures { (key g : ℕ → ℕ) → ((d : ℕ) (r : _) → d < darts → F.post at d r → (r.0 ≡ key d) × (r.1 ≡ g d)) → Table N (group_sum darts key g) result }
{
    let mut sums = [0u32; N];
    for d in 0..darts {
        let (k, number) = at(d);
        sums[k] += number;
    }
    sums
}

// The sum of the angles at each post.
fn post_angles(ends: Keys<64>, angles: &[u8]) -> [u32; 64]
    requires { length angles.now ≤ 256 }
    ensures { Table 64 (post_angles ends.entry.by_dart.now angles.now) result }
{
    group_sum(
        angles.len(),
        |d| (ends.of(twin_of(d)), u32::from(angles[d])),
    )
}

// Right bends and 2 for each dart of a face.
fn face_plus(face: Keys<66>, rights: &[u8]) -> [u32; 66]
    requires { length rights.now ≤ 256 }
    ensures { Table 66 (face_plus face.entry.by_dart.now rights.now) result }
{
    group_sum(rights.len(), |d| (face.of(d), u32::from(rights[d]) + 2))
}

// Left bends, which are the twin's right bends, and the angle of each dart of a face.
fn face_minus(face: Keys<66>, counts: Counts) -> [u32; 66]
    ensures { Table 66 (face_minus face.entry.by_dart.now counts.entry.angles.now counts.entry.rights.now) result }
{
    let Counts { angles, rights } = counts;
    group_sum(
        angles.len(),
        |d| (
            face.of(d),
            u32::from(rights[twin_of(d)]) + u32::from(angles[d]),
        ),
    )
}

// Each of `n` posts has 4.
fn all_four(sums: [u32; 64], n: usize) -> bool
    requires { n ≤ 64 }
    ensures { result ≡ all_four n 0 sums }
{
    (0..n).all(|v| sums[v] == 4)
}

// The turns of a face add to + 4, or to - 4 if it is the outer one. The flag is data of the face, and the definition takes it too.
fn turns_ok(outer: bool, plus: u32, minus: u32) -> bool
    ensures { result ≡ turns_ok outer plus minus }
{
    let p = u64::from(plus);
    let m = u64::from(minus);
    if outer { p + 4 == m } else { p == m + 4 }
}

// Each of `n` faces has its turns.
fn all_turn(plus: [u32; 66], minus: [u32; 66], n: usize, outer: usize) -> bool
    requires { n ≤ 66 }
    ensures { result ≡ all_turn n 0 outer plus minus }
{
    (0..n).all(|k| turns_ok(k == outer, plus[k], minus[k]))
}

// The angles at each post add to 4.
fn posts_ok(q: Plate, angles: &[u8]) -> bool
    requires { length angles.now ≡ q.darts }
    ensures { result ≡ posts_ok (meant q).posts 0 (meant q) angles.now }
{
    let ends = Keys { by_dart: &q.ends };
    all_four(post_angles(ends, angles), q.posts)
}

// The turns of each face add to what they should.
fn faces_ok(q: Plate, counts: Counts) -> bool
    requires { length counts.angles.now ≡ q.darts }
    ensures { result ≡ faces_ok (meant q) counts.entry.angles.now (shape_of (meant q) counts.entry.angles.now counts.entry.rights.now).words (faces (meant q)) }
{
    let face = Keys { by_dart: &q.face };
    let plus = face_plus(face, counts.rights);
    let minus = face_minus(face, counts);
    let outer = face.of(usize::from(q.outer));
    all_turn(plus, minus, q.faces, outer)
}

/// The first condition that the shape of these counts does not meet: angles from 1 to 4, angles at each post, turns of each face.
pub fn judge(q: Plate, counts: Counts) -> Result<(), Refusal>
    requires { length counts.angles.now ≡ q.darts }
    ensures { fault_of result ≡ judgement (meant q) counts.entry.angles.now counts.entry.rights.now }
{
    if !angles_ok(counts.angles) {
        return Err(Refusal::AngleRange);
    }
    if !posts_ok(q, counts.angles) {
        return Err(Refusal::AnglesAtPost);
    }
    if !faces_ok(q, counts) {
        return Err(Refusal::TurnsOfFace);
    }
    Ok(())
}
