//! A text read entry by entry against a plan, in one pass.
ghost use Rattle.std.specs.Prelude.{◌≡◌, List, ◌∷◌, [], ◌++◌, ◌&&◌, ◌%◌, ◌≤◌, ◌<◌, eqb, length, get_or, take};
ghost use Rattle.plates.specs.Text.{Entry as EntryOf};
ghost use Rattle.texts.specs.Plan.{laid};
ghost use Rattle.texts.specs.Parses.{held, ReadSoFar, IsPlan, ParsedBy, left_seen, twin_counts};

use crate::entries::Entry;
use crate::planning::Turn;
use crate::scanning::read_entry;
use embedding::twin_of;
use refusals::Refusal;
use shapes::counts::Counts;

/// What a text says of each dart. Arrays with a place for each dart that can be, since the library allocates nothing; and three of them, since
/// `Counts` lends angles and right bends as slices.
#[derive(Clone, Copy)]
pub struct Counted {
    pub angles: [u8; 256],
    pub rights: [u8; 256],
    pub lefts: [u8; 256],
}

impl Counted {
    /// Whether each of these darts has as many bends one way as its twin the other.
    pub fn twins_agree(&self, darts: usize) -> bool
        requires { (darts % 2 ≡ 0) × (darts ≤ 256) }
        ensures { result ≡ twin_counts darts 0 self.now.rights self.now.lefts }
    {
        (0..darts).all(|d| self.is_turned(d, twin_of(d)))
    }

    // Whether dart `d` has as many bends one way as dart `t` the other.
    fn is_turned(&self, d: usize, t: usize) -> bool
        requires { (d < 256) × (t < 256) }
        ensures { result ≡ (eqb (get_or self.now.rights t 0) (get_or self.now.lefts d 0) && eqb (get_or self.now.lefts t 0) (get_or self.now.rights d 0)) }
    {
        self.rights[t] == self.lefts[d] && self.lefts[t] == self.rights[d]
    }

    /// What the text says of the first `darts` darts. `BestShape` has a method like it: a struct of the two arrays for both would be a field more
    /// in each definition.
    pub fn counts(&self, darts: usize) -> Counts<'_>
        requires { (darts % 2 ≡ 0) × (darts ≤ 256) }
        ensures given { (result.angles.now ≡ take darts self.now.angles) × (result.rights.now ≡ take darts self.now.rights) }
        ensures long { length result.angles.now ≡ darts }
    {
        Counts {
            angles: &self.angles[..darts],
            rights: &self.rights[..darts],
        }
    }
}

// What is left of the plan behind an entry more, while the entries are its first ones; then what the entry says is stored by its dart.
fn take_entry<'a>(
    left: Option<&'a [Turn]>,
    entry: Entry,
    counted: &mut Counted,
) -> Option<&'a [Turn]>
    ensures { (plan es : List EntryOf) (x : EntryOf) → IsPlan plan → entry ≡ held x → ReadSoFar plan es (left_seen left.entry) counted.old → ReadSoFar plan (es ++ x ∷ []) (left_seen result) counted.new }
{
    let (turn, rest) = left?.split_first()?;
    let d = usize::from(turn.dart);
    if entry.dart != d || entry.last != turn.last {
        return None;
    }
    counted.angles[d] = entry.angle;
    counted.rights[d] = entry.word.right;
    counted.lefts[d] = entry.word.left;
    Some(rest)
}

/// The whole text: 30 where it is not of the form, then 31, then 32.
pub fn parse(text: &[u8], plan: &[Turn]) -> Result<Counted, Refusal>
    requires { IsPlan (laid plan.now) }
    ensures { ParsedBy (laid plan.now) text.now result }
{
    let mut counted = Counted {
        angles: [0; 256],
        rights: [0; 256],
        lefts: [0; 256],
    };
    let mut left = Some(plan);
    let mut mixed = false;
    let mut closed = true;
    let mut rest = text;
    // A while: each entry says by itself how long it is, so no iterator gives them.
    while !rest.is_empty() {
        let (entry, behind) = read_entry(rest).ok_or(Refusal::TextForm)?;
        mixed |= entry.word.is_mixed();
        left = take_entry(left, entry, &mut counted);
        closed = entry.last;
        rest = behind;
    }
    if !closed {
        return Err(Refusal::TextForm);
    }
    if mixed {
        return Err(Refusal::MixedWord);
    }
    let unread = left.ok_or(Refusal::TextFaces)?;
    if !unread.is_empty() {
        return Err(Refusal::TextFaces);
    }
    Ok(counted)
}
