//! A plate read from plain slices: refusals 7 to 15, darts, faces.
#![tactic(auto)]

ghost use Rattle.std.specs.Prelude.{◌≡◌, ◌<◌};
ghost use Rattle.embedding.specs.Plates.{twin};
ghost use Rattle.embedding.specs.Meant.{StandFor, held, Accepted};

pub mod journal;
mod labels;
mod order;
mod reached;
mod reading;
pub mod strips;

pub use crate::reading::read_plate;

// A plate without fault. The j-th dart of post v, clockwise, stands at 4 v + j of `places`; faces are numbered by their lowest darts.
// Arrays: the library allocates nothing.
#[derive(Clone, Copy)]
pub struct Plate {
    pub posts: usize,
    pub darts: usize,
    pub ends: [u8; 256],
    pub places: [u8; 256],
    pub degrees: [u8; 64],
    pub outer: u8,
    pub next: [u8; 256],
    pub face: [u8; 256],
    pub faces: usize,
    pub sizes: [u16; 66],
    pub ghost stands: { StandFor (held posts darts ends places degrees outer) posts darts ends places degrees outer next face faces sizes },
    pub ghost accepted: { Accepted (held posts darts ends places degrees outer) },
}

// The other dart of the strip of `d`.
pub fn twin_of(d: usize) -> usize
    requires { d < 256 }
    ensures { result ≡ twin d }
{
    if d % 2 == 0 { d + 1 } else { d - 1 }
}
