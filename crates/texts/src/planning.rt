//! The faces of a plate in the sequence of its text: the outer face first, the others by smallest dart.
ghost use Rattle.std.specs.Prelude.{◌≡◌, ◌<◌, [], ◌∷◌, ◌++◌, length};
ghost use Rattle.embedding.specs.Read.{meant, place_of};
ghost use Rattle.texts.specs.Plan.{FaceRoom, FaceLaid, NumberFits, NumberLaid, PlanHeld};

use embedding::Plate;
use std::marker::Model;

/// A dart in its turn, and whether it ends its line.
#[derive(Clone, Copy)]
pub struct Turn {
    pub dart: u8,
    pub last: bool,
}

/// The turns laid so far. By hand: the library stands on std alone, which has no list of fixed capacity.
#[derive(Clone, Copy)]
pub struct Laid {
    turns: [Turn; 256],
    count: usize,
}

// Clauses see the turns. The places behind them are blank, so that the turns give the fields back, as `Copy` asks.
impl Model for Laid {
    ghost use Rattle.std.specs.Prelude.{List, ◌++◌, ◌-◌, ◌≤◌, length, take, replicate};
    ghost use Rattle.std.proofs.Common.{ap, sym, subst, ◌∙◌, take-append-drop, length-take-le};
    ghost use Rattle.texts.specs.declared.planning.Turn.{Turn};
    ghost use Rattle.texts.specs.Plan.{no_turn, LaidIn};

    ghost Value = { List Turn };

    ghost view = { λ q. take q.count q.turns };

    ghost invariant = { λ q. LaidIn q.turns q.count };

    ghost inverse = { λ ts. record { turns = ts ++ replicate (256 - length ts) no_turn; count = length ts } };

    ghost inverse_ok = { λ q h.
        let long = length-take-le q.count q.turns (subst (λ n. q.count ≤ n) (sym h.long) h.most) in
        λ i. record {
          turns = (ap (λ n. take q.count q.turns ++ replicate (256 - n) no_turn) long
              ∙ ap (λ r. take q.count q.turns ++ r) (sym h.behind) ∙ take-append-drop q.count q.turns) i;
          count = long i;
        } };
}

impl Laid {
    fn new() -> Laid
        ensures { result ≡ [] }
    {
        let none = Turn {
            dart: 0,
            last: false,
        };
        Laid {
            turns: [none; 256],
            count: 0,
        }
    }

    fn push(&mut self, turn: Turn)
        requires { length self.old < 256 }
        ensures { self.new ≡ self.old ++ turn ∷ [] }
    {
        self.turns[self.count] = turn;
        self.count += 1;
    }

    /// The turns, as a slice.
    pub fn turns(&self) -> &[Turn]
        ensures { result.now ≡ self.now }
    {
        &self.turns[..self.count]
    }
}

// Where a face's number stands first: at its smallest dart. The length where it stands nowhere, as the definition has it.
fn lead_of(face: &[u8], number: usize) -> usize
    ensures { result ≡ place_of number face.now }
{
    let first = face.iter().position(|x| usize::from(*x) == number);
    first.unwrap_or(face.len())
}

// The face of dart `start`, laid behind the others.
#[tactic(auto, using(crate::proofs::LaidLaws::walking_start, crate::proofs::LaidLaws::walking_done, crate::proofs::LaidLaws::walking_more))]
fn lay_face(plate: &Plate, start: usize, plan: &mut Laid)
    requires { FaceRoom plate.now.next plate.now.darts start plan.old }
    ensures { FaceLaid plate.now.next plate.now.darts start plan.old plan.new }
{
    let mut dart = start;
    // A loop: the face goes on from dart to dart, and ends where it comes back to its start.
    loop {
        let after = usize::from(plate.next[dart]);
        let last = after == start;
        // `as`: a dart is below 256, and `try_from` would test it again.
        plan.push(Turn {
            dart: dart as u8,
            last,
        });
        if last {
            return;
        }
        dart = after;
    }
}

// The face of a number, laid behind the others.
#[tactic(auto, using(crate::proofs::LayingLaws::number_laid))]
fn lay_number(plate: &Plate, number: usize, plan: &mut Laid)
    requires { NumberFits (meant plate.now) number plan.old }
    ensures { NumberLaid (meant plate.now) number plan.old plan.new }
{
    let start = lead_of(&plate.face, number);
    lay_face(plate, start, plan);
}

/// All faces laid.
#[tactic(auto, using(crate::proofs::LayingLaws::outer_laid))]
pub fn plan_of(plate: Plate) -> Laid
    ensures { PlanHeld (meant plate) result }
{
    let outer = usize::from(plate.face[usize::from(plate.outer)]);
    let mut plan = Laid::new();
    lay_number(&plate, outer, &mut plan);
    for k in 0..plate.faces {
        if k != outer {
            lay_number(&plate, k, &mut plan);
        }
    }
    plan
}
