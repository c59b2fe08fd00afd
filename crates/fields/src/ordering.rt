//! Older files, whose fields stand in any order, written in tag order.
ghost use Rattle.std.specs.Prelude.{◌≡◌};
ghost use Rattle.fields.specs.Ordering.{is_shape_file, ordered_of, OrderSays};

use crate::writing::write_field;
use crate::{first, first_tag, walk_older};
use refusals::Refusal;

// Whether the first byte is one of a shape file, 10 hexadecimal or above.
fn is_shape(file: &[u8]) -> bool
    ensures { result ≡ is_shape_file file.now }
{
    first(file) >= 0x10
}

/// Writes an older file to the front of lent memory with its fields in tag order and gives their length, or refuses as the old walk did
/// or with 16 and changes nothing.
pub fn order_fields(file: &[u8], out: &mut [u8]) -> Result<usize, Refusal>
    ensures { OrderSays file.now out.old out.new (ordered_of result) }
{
    let shape = is_shape(file);
    let fields = walk_older(file, shape)?;
    if out.len() < file.len() {
        return Err(Refusal::MemoryShort);
    }
    let tag = first_tag(shape);
    let mut at = 0;
    for (slot, field) in fields.slots.iter().enumerate() {
        if let Some(content) = field {
            // `as`: there are eight slots, and `try_from` would test it again.
            at = write_field(out, at, tag + slot as u8, content);
        }
    }
    Ok(at)
}
