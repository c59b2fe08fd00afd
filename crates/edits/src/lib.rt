//! The editor's steps over plate lists: a list and a step in, the list after the step into lent memory.
#![tactic(auto)]

ghost use Rattle.std.specs.Prelude.{◌≡◌, ◌+◌, ◌≤◌, length};
ghost use Rattle.embedding.specs.Read.{meant};
ghost use Rattle.embedding.specs.declared.journal.Step.TheVariants.{Split, Hang, Join};
ghost use Rattle.fields.specs.Writing.{Written};
ghost use Rattle.plates.specs.Answers.{listed_of};
ghost use Rattle.plates.specs.Listing.{Gives};
ghost use Rattle.plates.specs.Journal.{new_rate, EditSays};
ghost use Rattle.edits.specs.Writes.{held, with_more, more_long, few, grown_bytes};

use embedding::Plate;
use embedding::journal::{Step, append};
use fields::writing::write_field;
use plates::reading::{PlateList, read_list};
use refusals::Refusal;

// The limit or the price of the strip that a step makes, where `unsaid` is that of a strip of which a list says nothing.
fn new_rate(rates: &[u8], step: Step, unsaid: u8) -> u8
    ensures { result ≡ new_rate unsaid rates.now step }
{
    match step {
        Step::Split(strip) => rates.get(strip).copied().unwrap_or(unsaid),
        Step::Hang(_) | Step::Join(_, _) => unsaid,
    }
}

// The length of limits or prices with one more behind them, as a field; 0 where there are none.
fn more_long(rates: Option<&[u8]>) -> usize
    requires { few (held rates) }
    ensures { result ≡ more_long (held rates.entry) }
{
    match rates {
        Some(rates) => 4 + rates.len(),
        None => 0,
    }
}

// Writes limits or prices with one more behind them from `at` on, if there are any, and gives the place behind them.
// `out` stays beside `at`, for the reason that `fields::writing` gives.
fn write_more(out: &mut [u8], at: usize, tag: u8, rates: Option<&[u8]>, more: u8) -> usize
    requires few { few (held rates) }
    requires enough { at + more_long (held rates) ≤ length out.old }
    ensures { Written at (with_more tag (held rates.entry) more) out.old out.new result }
{
    match rates {
        Some(rates) => {
            let n = rates.len();
            let before = append([0; 256], 0, rates);
            let all = append(before, n, &[more]);
            write_field(out, at, tag, &all[..n + 1])
        }
        None => at,
    }
}

// A list, its plate with one strip more, and that strip's limit and price.
#[derive(Clone, Copy)]
struct Grown<'a> {
    list: PlateList<'a>,
    plate: Plate,
    limit: u8,
    price: u8,
    ghost one_more: { plate.darts ≡ list.plate.darts + 2 },
    ghost few: { plate.darts ≤ 256 },
}

impl Grown<'_> {
    // The length of the list that is to be written.
    #[tactic(auto, using(crate::proofs::WriteLaws::lengths))]
    fn long(&self) -> usize
        ensures { result ≡ length (grown_bytes self.now.list.bytes.now (meant self.now.plate) self.now.limit self.now.price) }
    {
        let limits = more_long(self.list.fields.limits);
        let prices = more_long(self.list.fields.prices);
        19 + 2 * self.plate.darts + limits + prices
    }

    // Writes the fields of the plate, behind the revision of the list, and gives their length.
    #[tactic(auto, using(crate::proofs::WriteLaws::lengths))]
    fn write_fields(&self, out: &mut [u8]) -> usize
        requires { length (grown_bytes self.now.list.bytes.now (meant self.now.plate) self.now.limit self.now.price) ≤ length out.old }
        ensures { Written 0 (grown_bytes self.now.list.bytes.now (meant self.now.plate) self.now.limit self.now.price) out.old out.new result }
    {
        let darts = self.plate.darts;
        let order = self.plate.order();
        let second = write_field(out, 0, 0x01, self.list.fields.revision);
        // `as`: there are at most 64 posts, and `try_from` would test it again.
        let third = write_field(out, second, 0x02, &[self.plate.posts as u8]);
        let fourth = write_field(out, third, 0x03, &self.plate.ends[..darts]);
        let fifth = write_field(out, fourth, 0x04, &order[..darts]);
        let sixth = write_field(out, fifth, 0x05, &[self.plate.outer]);
        let seventh = write_more(out, sixth, 0x07, self.list.fields.limits, self.limit);
        write_more(out, seventh, 0x08, self.list.fields.prices, self.price)
    }

    // Writes the list to the front of lent memory, or refuses with 16 and changes nothing.
    #[tactic(auto, using(crate::proofs::EditLaws::written_gives))]
    fn write(&self, out: &mut [u8]) -> Result<usize, Refusal>
        ensures { Gives (grown_bytes self.now.list.bytes.now (meant self.now.plate) self.now.limit self.now.price) out.old out.new (listed_of result) }
    {
        if out.len() < self.long() {
            return Err(Refusal::MemoryShort);
        }
        Ok(self.write_fields(out))
    }
}

// In the calls below `list` and `out` stay beside each other, and beside what tells the step: a file, and memory for one, which C gives as they are.

/// Writes the list after a step to the front of lent memory and gives its length, or
/// refuses with the list's number, 35, 36, 37 or 16 and changes nothing.
pub fn edit_list(list: &[u8], step: Step, out: &mut [u8]) -> Result<usize, Refusal>
    ensures { EditSays list.now step out.old out.new (listed_of result) }
{
    let before = read_list(list)?;
    let edited = before.plate.apply(step);
    edited.verdict?;
    let after = Grown {
        list: before,
        plate: edited.plate,
        limit: new_rate(before.limits(), step, 255),
        price: new_rate(before.prices(), step, 1),
    };
    after.write(out)
}

// `split_strip` and `hang_strip` are alike but for the step: each is a name for one step, as the library's C functions are.

/// A strip ends at a new post, and a new strip runs from there to its old end.
pub fn split_strip(list: &[u8], strip: usize, out: &mut [u8]) -> Result<usize, Refusal>
    ensures { EditSays list.now (Split strip) out.old out.new (listed_of result) }
{
    edit_list(list, Step::Split(strip), out)
}

/// A new strip to a new post, in the corner where a dart ends.
pub fn hang_strip(list: &[u8], dart: usize, out: &mut [u8]) -> Result<usize, Refusal>
    ensures { EditSays list.now (Hang dart) out.old out.new (listed_of result) }
{
    edit_list(list, Step::Hang(dart), out)
}

/// A new strip from the corner where a dart ends to the corner where another dart of its face ends.
pub fn join_darts(list: &[u8], dart: usize, other: usize, out: &mut [u8]) -> Result<usize, Refusal>
    ensures { EditSays list.now (Join dart other) out.old out.new (listed_of result) }
{
    edit_list(list, Step::Join(dart, other), out)
}
