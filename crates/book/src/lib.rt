//! A book of entries, each a model, a revision and the revision replaced: the current revision of a model.
#![tactic(auto)]

ghost use Rattle.std.specs.Prelude.{◌≡◌, ◌==◌, ◌&&◌, find, slice_get};
ghost use Rattle.std.specs.List.{list_any};
ghost use Rattle.finite.specs.Base.{is_in};
ghost use Rattle.refusals.specs.Numbers.{fault_of};
ghost use Rattle.book.specs.Entries.{entry_of, entries_in, listed_of, entry_fault, entries_fault, LastRoom, EntryRoom};
ghost use Rattle.book.specs.Says.{AnswerIs};

use refusals::Refusal;

#[derive(Clone, Copy)]
pub struct Entry {
    pub model: u16,
    pub revision: u16,
    pub replaced: u16,
}

// Six bytes: three numbers, each high byte first.
impl From<[u8; 6]> for Entry {
    ghost from_gives = { λ bytes entry. entry ≡ entry_of bytes };

    fn from([a, b, c, d, e, f]: [u8; 6]) -> Entry {
        Entry {
            model: u16::from_be_bytes([a, b]),
            revision: u16::from_be_bytes([c, d]),
            replaced: u16::from_be_bytes([e, f]),
        }
    }
}

// Whether some entry is of the model and lists this revision, which is tested first, since fewer entries have it. From the last on,
// since the last are most likely to. `before` and `model` stand beside each other here and in the two below: a struct of both would be
// made for one call each.
fn is_listed(before: &[[u8; 6]], model: u16, revision: u16) -> bool
    ensures { result ≡ list_any (λ e. (e.revision == revision) && (e.model == model)) (entries_in before.now) }
{
    before
        .iter()
        .rev()
        .map(|bytes| Entry::from(*bytes))
        .any(|e| e.revision == revision && e.model == model)
}

// The last entry of the model. A function of its own: the proof of a chain that ends in `find` is found, of one with a `map` behind it
// not.
fn last_of(before: &[[u8; 6]], model: u16) -> Option<Entry>
    ensures { result ≡ find (λ e. e.model == model) (entries_in before.now) }
{
    before
        .iter()
        .rev()
        .map(|bytes| Entry::from(*bytes))
        .find(|e| e.model == model)
}

// The last revision of the model.
fn latest_of(before: &[[u8; 6]], model: u16) -> Option<u16>
    ensures { result ≡ slice_get (listed_of model (entries_in before.now)) 0 }
{
    last_of(before, model).map(|last| last.revision)
}

// Whether some of these entries, of which `latest` is the model's last revision, list that of the entry. Where
// each of them replaces a lower revision (`rising`, which the entries tell), one above the last is not listed. A `bool`: it is a fact
// about the entries, found out entry by entry.
fn is_repeated(before: &[[u8; 6]], entry: Entry, latest: u16, rising: bool) -> bool
    requires { LastRoom (entries_in before.now) entry.model latest rising }
    ensures { result ≡ is_in entry.revision (listed_of entry.model (entries_in before.now)) }
{
    if rising && latest < entry.revision {
        return false;
    }
    is_listed(before, entry.model, entry.revision)
}

// Refuses an entry against those before it, which have no refusal, told whether they rise. The first of a model replaces 0.
fn check_entry(before: &[[u8; 6]], entry: Entry, rising: bool) -> Result<(), Refusal>
    requires { EntryRoom (entries_in before.now) rising }
    ensures { fault_of result ≡ entry_fault (entries_in before.now) entry }
{
    let latest = latest_of(before, entry.model).unwrap_or(0);
    if entry.revision == 0 || is_repeated(before, entry, latest, rising) {
        return Err(Refusal::RevisionListed);
    }
    if entry.replaced != latest {
        return Err(Refusal::NotCurrent);
    }
    Ok(())
}

// `inline(never)`: within a larger function the loops of the searches took up to 1.7 times as long.
#[inline(never)]
fn check_entries(entries: &[[u8; 6]]) -> Result<(), Refusal>
    ensures { fault_of result ≡ entries_fault (entries_in entries.now) }
{
    let mut rising = true;
    for (i, bytes) in entries.iter().enumerate() {
        let entry = Entry::from(*bytes);
        check_entry(&entries[..i], entry, rising)?;
        rising &= entry.replaced < entry.revision;
    }
    Ok(())
}

// The current revision of a model, the one that no entry of that model replaces, in a book that is checked whole; none where the model is not there.
pub fn current_revision(book: &[u8], model: u16) -> Result<Option<u16>, Refusal>
    ensures { AnswerIs book.now model result }
{
    let (entries, rest) = book.as_chunks::<6>();
    check_entries(entries)?;
    if !rest.is_empty() {
        return Err(Refusal::EntryCut);
    }
    Ok(latest_of(entries, model))
}
