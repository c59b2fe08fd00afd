//! A plate list and a shape file for it, read: their fields, the plate and the counts.
ghost use Rattle.std.specs.Prelude.{◌≡◌, List, false, true, IfOk, option_map};
ghost use Rattle.refusals.specs.Numbers.{fault_of};
ghost use Rattle.fields.specs.Says.{ListFieldsOf, word};
ghost use Rattle.embedding.specs.Read.{meant};
ghost use Rattle.plates.specs.Files.{Field, content_of, content_at, walk_all, list_fault, limits_fit, prices_fit, plate_of, limits_of, prices_of};
ghost use Rattle.plates.specs.Says.{angles_in, rights_in};
ghost use Rattle.plates.specs.Read.{ShapeHeld, shape_file_fault};

use embedding::{Plate, read_plate};
use fields::{ListFields, ShapeFields, first, number, walk_list, walk_shape};
use refusals::Refusal;
use shapes::counts::Counts;
use shapes::rates::prices_ok;

/// A plate list that passed the walk: its bytes and the contents of its fields.
/// Its plate, limits and prices may still be refused.
#[derive(Clone, Copy)]
pub struct WalkedList<'a> {
    pub bytes: &'a [u8],
    pub fields: ListFields<'a>,
    pub ghost walked: { (walk_all false bytes.now).number ≡ 0 },
    pub ghost contents: { ListFieldsOf (walk_all false bytes.now).fields fields },
}

/// An accepted plate list: its bytes, the contents of its fields and its plate.
#[derive(Clone, Copy)]
pub struct PlateList<'a> {
    pub bytes: &'a [u8],
    pub fields: ListFields<'a>,
    pub plate: Plate,
    pub ghost accepted: { list_fault bytes.now ≡ 0 },
    pub ghost contents: { ListFieldsOf (walk_all false bytes.now).fields fields },
    pub ghost table: { meant plate ≡ plate_of bytes.now },
}

/// A shape file for an accepted list: it has the list's revision, and an angle and right bends for each dart.
#[derive(Clone, Copy)]
pub struct ShapeFile<'a> {
    pub list: PlateList<'a>,
    pub bytes: &'a [u8],
    pub total: &'a [u8],
    pub counts: Counts<'a>,
    pub sum: Option<&'a [u8]>,
    pub ghost accepted: { shape_file_fault list.bytes.now bytes.now ≡ 0 },
    pub ghost total_said: { total.now ≡ content_of 18 (walk_all true bytes.now).fields },
    pub ghost angles: { counts.angles.now ≡ angles_in bytes.now },
    pub ghost rights: { counts.rights.now ≡ rights_in bytes.now },
    pub ghost sum_said: { option_map (λ c. c.now) sum ≡ content_at 22 (walk_all true bytes.now).fields },
}

impl<'a> WalkedList<'a> {
    /// The list, or its walk's refusal: 1 to 6, 29.
    pub fn new(bytes: &'a [u8]) -> Result<WalkedList<'a>, Refusal>
        ensures { (fault_of result ≡ (walk_all false bytes.now).number) × IfOk result (λ list. list.bytes.now ≡ bytes.now) }
    {
        let fields = walk_list(bytes)?;
        Ok(WalkedList { bytes, fields })
    }

    /// The fields of a shape file for the list, or its refusal: 1 to 6, 17, 18, 29.
    #[tactic(auto, using(crate::proofs::HeldLists::angles_differ, crate::proofs::HeldLists::rights_differ))]
    pub fn read_shape(&self, bytes: &'a [u8]) -> Result<ShapeFields<'a>, Refusal>
        ensures { (fault_of result ≡ shape_file_fault self.now.bytes.now bytes.now) × IfOk result (ShapeHeld self.now.bytes.now bytes.now) }
    {
        let shape = walk_shape(bytes)?;
        let darts = self.fields.ends.len();
        if shape.angles.len() != darts || shape.rights.len() != darts {
            return Err(Refusal::ShapeLength);
        }
        if number(self.fields.revision) != number(shape.revision) {
            return Err(Refusal::RevisionDiffers);
        }
        Ok(shape)
    }
}

impl<'a> PlateList<'a> {
    /// The list as one that passed the walk.
    pub fn walked(&self) -> WalkedList<'a>
        ensures { result.bytes.now ≡ self.now.bytes.now }
    {
        WalkedList {
            bytes: self.bytes,
            fields: self.fields,
        }
    }

    /// The limits of bends, one for each strip; none where the list has no limits.
    pub fn limits(&self) -> &'a [u8]
        ensures { result.now ≡ limits_of self.now.bytes.now }
    {
        self.fields.limits.unwrap_or(b"")
    }

    /// The prices of bends, one for each strip; none where the list has no prices.
    pub fn prices(&self) -> &'a [u8]
        ensures { result.now ≡ prices_of self.now.bytes.now }
    {
        self.fields.prices.unwrap_or(b"")
    }

    /// The remark; none where the list has no remark.
    pub fn remark(&self) -> &'a [u8]
        ensures { result.now ≡ content_of 6 (walk_all false self.now.bytes.now).fields }
    {
        self.fields.remark.unwrap_or(b"")
    }

    /// The revision.
    pub fn revision(&self) -> usize
        ensures { result ≡ word (content_of 1 (walk_all false self.now.bytes.now).fields) }
    {
        number(self.fields.revision)
    }
}

// Are the limits of bends, where the list has them, one for each strip?
#[tactic(auto, using(crate::proofs::HeldLists::limits_fit_some, crate::proofs::HeldLists::limits_fit_none))]
fn limits_fit(fields: ListFields) -> bool
    ensures { (fs : List Field) → ListFieldsOf fs fields.entry → result ≡ limits_fit fs }
{
    match fields.limits {
        Some(limits) => limits.len() == fields.ends.len() / 2,
        None => true,
    }
}

// Are the prices of bends, where the list has them, one for each strip, each 1 to 100?
#[tactic(auto, using(crate::proofs::HeldLists::prices_fit_enough, crate::proofs::HeldLists::prices_fit_other, crate::proofs::HeldLists::prices_fit_none))]
fn prices_fit(fields: ListFields) -> bool
    ensures { (fs : List Field) → ListFieldsOf fs fields.entry → result ≡ prices_fit fs }
{
    match fields.prices {
        Some(prices) => prices.len() == fields.ends.len() / 2 && prices_ok(prices),
        None => true,
    }
}

/// The list, or its refusal.
#[tactic(auto, using(crate::proofs::HeldLists::contents_lengths))]
pub fn read_list(bytes: &[u8]) -> Result<PlateList<'_>, Refusal>
    ensures { (fault_of result ≡ list_fault bytes.now) × IfOk result (λ list. list.bytes.now ≡ bytes.now) }
{
    let WalkedList { bytes, fields } = WalkedList::new(bytes)?;
    let plate = read_plate(
        first(fields.posts),
        fields.ends,
        fields.order,
        first(fields.outer),
    )?;
    if !limits_fit(fields) {
        return Err(Refusal::LimitsLength);
    }
    if !prices_fit(fields) {
        return Err(Refusal::PricesWrong);
    }
    Ok(PlateList {
        bytes,
        fields,
        plate,
    })
}

/// The shape file for a list, or its refusal: 1 to 6, 17, 18, 29.
pub fn read_shape<'a>(list: PlateList<'a>, bytes: &'a [u8]) -> Result<ShapeFile<'a>, Refusal>
    ensures { (fault_of result ≡ shape_file_fault list.entry.bytes.now bytes.now) × IfOk result (λ file. (file.list.bytes.now ≡ list.entry.bytes.now) × (file.bytes.now ≡ bytes.now)) }
{
    let shape = list.walked().read_shape(bytes)?;
    Ok(ShapeFile {
        list,
        bytes,
        total: shape.total,
        counts: Counts {
            angles: shape.angles,
            rights: shape.rights,
        },
        sum: shape.sum,
    })
}
