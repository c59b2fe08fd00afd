//! The walk over the fields of a plate list or a shape file.
#![tactic(auto)]

ghost use Rattle.std.specs.Prelude.{◌≡◌, ◌+◌, ◌*◌, true, false};
ghost use Rattle.finite.specs.Base.{pick};
ghost use Rattle.fields.specs.Files.{is_known};
ghost use Rattle.fields.specs.Rules.{RuleIs, RuleBy, FrontIs, keeps, first_tag};
ghost use Rattle.fields.specs.Says.{FieldsMet, HoldsBy, ListThere, ShapeThere, AllThere, ListWalked, ShapeWalked, head, word};

use refusals::Refusal;

pub mod ordering;
pub mod writing;

// `shape`, here and below: a shape file, else a plate list. A `bool`: with an enum each contract would need a function from it to the
// definitions' `bool`.

/// The length rule of a tag.
#[derive(Clone, Copy, Debug, PartialEq, Eq)]
pub enum Rule {
    Exactly(usize),
    EvenUpTo(usize),
    UpTo(usize),
}

impl Rule {
    // Whether it allows a length.
    fn allows(self, long: usize) -> bool
        ensures { result ≡ keeps self long }
    {
        match self {
            Rule::Exactly(n) => long == n,
            Rule::EvenUpTo(n) => long <= n && long % 2 == 0,
            Rule::UpTo(n) => long <= n,
        }
    }
}

/// The rule of a tag of a plate list; none where it is no such tag.
pub fn list_rule(tag: u8) -> Option<Rule>
    ensures { RuleIs false tag result }
{
    match tag {
        0x01 => Some(Rule::Exactly(2)),
        0x02 | 0x05 => Some(Rule::Exactly(1)),
        0x03 => Some(Rule::EvenUpTo(256)),
        0x04 => Some(Rule::UpTo(256)),
        0x06 => Some(Rule::UpTo(80)),
        0x07..=0x08 => Some(Rule::UpTo(128)),
        _ => None,
    }
}

/// The rule of a tag of a shape; none where it is no such tag.
pub fn shape_rule(tag: u8) -> Option<Rule>
    ensures { RuleIs true tag result }
{
    match tag {
        0x11..=0x12 => Some(Rule::Exactly(2)),
        0x13..=0x14 => Some(Rule::UpTo(256)),
        0x15 => Some(Rule::UpTo(80)),
        0x16 => Some(Rule::Exactly(4)),
        _ => None,
    }
}

// Does the walk take this tag? In any order it takes no prices, nor their sum. `in_order`, here and below: tags ascend. It stays beside
// `shape`, as in the definitions: what is asked of the kind of a file alone does not need it.
fn is_known(shape: bool, in_order: bool, tag: u8) -> bool
    ensures { result ≡ is_known in_order shape tag }
{
    let price_tag = if shape { 0x16 } else { 0x08 };
    in_order || tag != price_tag
}

// The rule of a tag of this kind of file; none where the walk does not know it.
fn rule_of(shape: bool, in_order: bool, tag: u8) -> Option<Rule>
    ensures { RuleBy in_order shape tag result }
{
    if !is_known(shape, in_order, tag) {
        return None;
    }
    if shape {
        shape_rule(tag)
    } else {
        list_rule(tag)
    }
}

// The tag of the first slot of this kind of file.
fn first_tag(shape: bool) -> u8
    ensures { result ≡ first_tag shape }
{
    if shape { 0x11 } else { 0x01 }
}

/// The content of each field of a file, by the field's slot, and where it
/// starts in the file; 0 where there is none. Slots 0 to 7 are those of tags 01
/// to 08 in a plate list, 0 to 5 those of 11 to 16 in a shape file.
// Arrays: each kind of file names its fields in its own way.
#[derive(Clone, Copy)]
pub struct Slots<'a> {
    pub slots: [Option<&'a [u8]>; 8],
    pub at: [usize; 8],
}

/// The contents of a plate list's fields, and where each starts, by slot.
// An array: as in `Slots`.
#[derive(Clone, Copy)]
pub struct ListFields<'a> {
    pub revision: &'a [u8],
    pub posts: &'a [u8],
    pub ends: &'a [u8],
    pub order: &'a [u8],
    pub outer: &'a [u8],
    pub remark: Option<&'a [u8]>,
    pub limits: Option<&'a [u8]>,
    pub prices: Option<&'a [u8]>,
    pub at: [usize; 8],
}

/// The contents of a shape file's fields, and where each starts, by slot.
// An array: as in `Slots`.
#[derive(Clone, Copy)]
pub struct ShapeFields<'a> {
    pub revision: &'a [u8],
    pub total: &'a [u8],
    pub angles: &'a [u8],
    pub rights: &'a [u8],
    pub remark: Option<&'a [u8]>,
    pub sum: Option<&'a [u8]>,
    pub at: [usize; 8],
}

impl<'a> Slots<'a> {
    // The fields of a plate list. All but the remark, the limits and the prices must be there.
    fn list_fields(self) -> Result<ListFields<'a>, Refusal>
        ensures { ListThere self.entry result }
    {
        let absent = Refusal::FieldAbsent;
        let [revision, posts, ends, order, outer, remark, limits, prices] = self.slots;
        Ok(ListFields {
            revision: revision.ok_or(absent)?,
            posts: posts.ok_or(absent)?,
            ends: ends.ok_or(absent)?,
            order: order.ok_or(absent)?,
            outer: outer.ok_or(absent)?,
            remark,
            limits,
            prices,
            at: self.at,
        })
    }

    // The fields of a shape file. All but the remark and the sum must be there.
    fn shape_fields(self) -> Result<ShapeFields<'a>, Refusal>
        ensures { ShapeThere self.entry result }
    {
        let absent = Refusal::FieldAbsent;
        let [revision, total, angles, rights, remark, sum, ..] = self.slots;
        Ok(ShapeFields {
            revision: revision.ok_or(absent)?,
            total: total.ok_or(absent)?,
            angles: angles.ok_or(absent)?,
            rights: rights.ok_or(absent)?,
            remark,
            sum,
            at: self.at,
        })
    }

    // All slots of a file of this kind in which no field that must be there is absent.
    fn all_there(self, shape: bool) -> Result<Slots<'a>, Refusal>
        ensures { AllThere shape self.entry result }
    {
        if shape {
            self.shape_fields()?;
        } else {
            self.list_fields()?;
        }
        Ok(self)
    }
}

// The number of two bytes.
fn joined(high: u8, low: u8) -> usize
    ensures { result ≡ 256 * high + low }
{
    usize::from(u16::from_be_bytes([high, low]))
}

// One field met: its slot and content, and what is behind it.
#[derive(Clone, Copy)]
struct Met<'a> {
    slot: usize,
    content: &'a [u8],
    rest: &'a [u8],
}

// The field at the front of `s`, in this kind of file, with the slots met before it and the tag that it may not be below: all six refusals,
// then the field. The tests are bound before the branches, so that their order is seen in the branches alone.
fn step<'a>(
    s: &'a [u8],
    shape: bool,
    in_order: bool,
    before: &Slots<'a>,
    lowest: u8,
) -> Result<Met<'a>, Refusal>
    ensures { FrontIs in_order shape before.now.slots lowest s.now result }
{
    let [tag, high, low, behind @ ..] = s else {
        return Err(Refusal::FieldCut);
    };
    let rule = rule_of(shape, in_order, *tag).ok_or(Refusal::UnknownTag)?;
    let slot = usize::from(*tag - first_tag(shape));
    let in_slot = before.slots[slot];
    let is_met = in_slot.is_some();
    let is_below = *tag < lowest;
    let long = joined(*high, *low);
    let is_wrong = !rule.allows(long);
    if is_met {
        return Err(Refusal::RepeatedTag);
    }
    if is_below {
        return Err(Refusal::TagOrder);
    }
    if is_wrong {
        return Err(Refusal::FieldLength);
    }
    if behind.len() < long {
        return Err(Refusal::ContentCut);
    }
    let (content, rest) = behind.split_at(long);
    Ok(Met {
        slot,
        content,
        rest,
    })
}

// The tag that the next field may not be below: this one where tags ascend, else none.
fn lowest_after(in_order: bool, tag: u8) -> u8
    ensures { result ≡ pick in_order tag 0 }
{
    if in_order { tag } else { 0 }
}

// The walk over a file of this kind, field by field from the front. Which fields are absent is not looked at.
fn walk(s: &[u8], shape: bool, in_order: bool) -> Result<Slots<'_>, Refusal>
    ensures { FieldsMet in_order shape s.now result }
{
    let mut met = Slots {
        slots: [None; 8],
        at: [0; 8],
    };
    let mut lowest = 0;
    let mut rest = s;
    // A `while`: each field says how long it is, so no iterator gives them.
    while let [tag, ..] = rest {
        let field = step(rest, shape, in_order, &met, lowest)?;
        met.slots[field.slot] = Some(field.content);
        // `rest` still begins with the field's head, three bytes.
        met.at[field.slot] = s.len() - rest.len() + 3;
        lowest = lowest_after(in_order, *tag);
        rest = field.rest;
    }
    Ok(met)
}

/// The fields of a plate list, or its refusal.
#[tactic(auto, using(crate::proofs::Named::list_walked))]
pub fn walk_list(s: &[u8]) -> Result<ListFields<'_>, Refusal>
    ensures { ListWalked s.now result }
{
    walk(s, false, true)?.list_fields()
}

/// The fields of a shape, or its refusal.
#[tactic(auto, using(crate::proofs::Named::shape_walked))]
pub fn walk_shape(s: &[u8]) -> Result<ShapeFields<'_>, Refusal>
    ensures { ShapeWalked s.now result }
{
    walk(s, true, true)?.shape_fields()
}

/// The fields of an older file of this kind, in any order, or its refusal.
#[tactic(auto, using(crate::proofs::Named::older_walked))]
pub fn walk_older(s: &[u8], shape: bool) -> Result<Slots<'_>, Refusal>
    ensures { HoldsBy false shape s.now result }
{
    walk(s, shape, false)?.all_there(shape)
}

/// The first byte; 0 where there is none, as the definition has it.
pub fn first(bytes: &[u8]) -> u8
    ensures { result ≡ head bytes.now }
{
    bytes.first().copied().unwrap_or(0)
}

/// The first two bytes as a number, high byte first; 0 in place of one that is not there.
pub fn number(bytes: &[u8]) -> usize
    ensures { result ≡ word bytes.now }
{
    let second = bytes.get(1).copied().unwrap_or(0);
    joined(first(bytes), second)
}
