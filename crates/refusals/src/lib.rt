//! The refusals of documents 01 and 02, each with its number.
#![tactic(auto)]

ghost use Rattle.std.specs.Prelude.{◌≡◌, ◌++◌, Some, codes};
ghost use Rattle.std.specs.Fmt.{decimal};
ghost use Rattle.refusals.specs.Numbers.{number_of};

use std::error::Error;
use std::fmt;

/// Why a plate list, a shape file, a text, a step, lent memory or a book is refused.
#[derive(Clone, Copy, Debug, PartialEq, Eq, Hash)]
pub enum Refusal {
    /// One or two bytes remain where a field should begin.
    FieldCut = 1,
    /// A tag that is not of this file.
    UnknownTag = 2,
    /// A tag met before.
    RepeatedTag = 3,
    /// A field's length is not as laid out.
    FieldLength = 4,
    /// A field's content passes the end.
    ContentCut = 5,
    /// A field other than the remark, the limits, the prices and their sum is
    /// absent.
    FieldAbsent = 6,
    /// No post, or over 64.
    PostCount = 7,
    /// No strip.
    NoStrips = 8,
    /// Some strip's end is not a post.
    EndNotAPost = 9,
    /// Some post has over four places taken; a strip from the post to itself
    /// takes two. 10 is not given and stands for nothing.
    OverFourPlaces = 11,
    /// The clockwise order is not each post's leaving darts, each once.
    ClockwiseOrder = 12,
    /// The outer dart is not a dart of the plate.
    OuterDart = 13,
    /// The plate is not connected.
    NotConnected = 14,
    /// The plate is connected, but not plane.
    NotPlane = 15,
    /// The lent memory is shorter than what is to be written.
    MemoryShort = 16,
    /// Angles or right bends are not one for each dart.
    ShapeLength = 17,
    /// The shape's revision differs from the plate list's.
    RevisionDiffers = 18,
    /// An angle is outside 1 to 4.
    AngleRange = 19,
    /// The angles at some post do not add to 4.
    AnglesAtPost = 20,
    /// The turns of some face do not add to +4, or −4 for the outer face.
    TurnsOfFace = 21,
    /// The total differs from the sum of the right bends.
    TotalDiffers = 22,
    /// The limits are not one for each strip.
    LimitsLength = 23,
    /// No shape of the plate keeps the limits.
    NoShapeWithin = 24,
    /// A strip has more bends than its limit.
    LimitPassed = 25,
    /// A tag is below the previous one.
    TagOrder = 29,
    /// A line of a text is not of its form, or has a word of over 255 digits.
    TextForm = 30,
    /// A word of a text has both digits, or a strip of a shape that is to be
    /// written as text bends both ways.
    MixedWord = 31,
    /// The faces of a text, with their sequence and starts, are not the plate's,
    /// or its words do not agree across a strip.
    TextFaces = 32,
    /// A strip or dart of a step that is not there, or darts to be joined that
    /// are equal or of two faces.
    NoSuchStep = 35,
    /// A step to post 65 or strip 129.
    PlateFull = 36,
    /// A step to a fifth place at a post.
    PostFull = 37,
    /// The prices are not one for each strip, or one is outside 1 to 100.
    PricesWrong = 38,
    /// A shape's sum of bends times price is absent though the list has prices,
    /// present though it has none, or not that of the shape's own bends.
    SumWrong = 39,
    /// The last entry of a book has under six bytes.
    EntryCut = 40,
    /// An entry's revision is 0, or already listed for its model.
    RevisionListed = 41,
    /// The revision that an entry replaces is not its model's current one or,
    /// for a new model, not 0.
    NotCurrent = 42,
}

impl Refusal {
    /// Its number.
    pub fn number(self) -> u8
        ensures { result ≡ number_of self }
    {
        // `as`: only a cast gives an enum's number.
        self as u8
    }
}

impl fmt::Display for Refusal {
    ghost output = { λ r. Some (codes "refused " ++ decimal (number_of r)) };

    fn fmt<W: fmt::Write>(&self, f: &mut fmt::Formatter<W>) -> fmt::Result {
        let number = self.number();
        write!(f, "refused {number}")
    }
}

impl Error for Refusal {}
