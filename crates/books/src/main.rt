//! Asks small books for the current revision of a model and prints a line for each: the label, and the revision, that the
//! model is absent, or the refusal's number. The expected lines were worked out by hand from document 02.
#![tactic(auto)]

use book::current_revision;
use std::io;

fn ask(rt: &impl Print, label: &str, book: &[u8], model: u16) -> io::Result<()> {
    match current_revision(book, model) {
        Ok(Some(revision)) => println!(rt; "{label}: revision {revision}"),
        Ok(None) => println!(rt; "{label}: absent"),
        Err(refusal) => println!(rt; "{label}: {refusal}"),
    }
}

// Accepted books.
fn accepted(rt: &impl Print) -> io::Result<()> {
    // No entry is no bad entry.
    ask(rt, "empty", b"", 7)?;
    ask(rt, "first entry", b"\x00\x07\x00\x01\x00\x00", 7)?;
    ask(rt, "other model", b"\x00\x07\x00\x01\x00\x00", 8)?;
    // Model 0 is a model like others.
    ask(rt, "model 0", b"\x00\x00\x00\x03\x00\x00", 0)?;
    // High byte first: model 258, revision 259.
    ask(rt, "high bytes", b"\x01\x02\x01\x03\x00\x00", 258)?;
    ask(rt, "largest numbers", b"\xff\xff\xff\xff\x00\x00", 65535)?;
    // Revision 5 in place of 1.
    ask(
        rt,
        "replaced",
        b"\x00\x07\x00\x01\x00\x00\x00\x07\x00\x05\x00\x01",
        7,
    )?;
    // The current revision is the one that is not replaced, not the greatest.
    ask(
        rt,
        "falling",
        b"\x00\x07\x00\x05\x00\x00\x00\x07\x00\x01\x00\x05",
        7,
    )
}

// Two models, each with its own revisions: model 7 has 1, 4 and 2, model 9 has 4 and 1.
fn two_models(rt: &impl Print) -> io::Result<()> {
    let book =
        b"\x00\x07\x00\x01\x00\x00\x00\x09\x00\x04\x00\x00\x00\x07\x00\x04\x00\x01\x00\x09\x00\x01\x00\x04\x00\x07\x00\x02\x00\x04";
    ask(rt, "model 7 of two", book, 7)?;
    ask(rt, "model 9 of two", book, 9)?;
    ask(rt, "model 8 of two", book, 8)
}

// Refusal 40, whatever the bytes of the cut entry are, and for every model.
fn cut_entries(rt: &impl Print) -> io::Result<()> {
    ask(rt, "one byte", b"\x00", 7)?;
    ask(rt, "five bytes", b"\x00\x07\x00\x01\x00", 7)?;
    // What is there of the entry gives revision 0.
    ask(rt, "cut behind revision 0", b"\x00\x07\x00\x00", 7)?;
    ask(
        rt,
        "second entry cut",
        b"\x00\x07\x00\x01\x00\x00\x00\x09\x00\x01\x00",
        7,
    )
}

// Refusal 41: revision 0, and a revision already listed for the model.
fn listed_revisions(rt: &impl Print) -> io::Result<()> {
    ask(rt, "revision 0", b"\x00\x07\x00\x00\x00\x00", 7)?;
    // The current revision once more.
    ask(
        rt,
        "listed",
        b"\x00\x07\x00\x01\x00\x00\x00\x07\x00\x01\x00\x01",
        7,
    )?;
    // Back to a revision that was replaced, behind rising ones and behind a falling one.
    ask(
        rt,
        "back to the first",
        b"\x00\x07\x00\x01\x00\x00\x00\x07\x00\x02\x00\x01\x00\x07\x00\x01\x00\x02",
        7,
    )?;
    ask(
        rt,
        "back to the greatest",
        b"\x00\x07\x00\x03\x00\x00\x00\x07\x00\x02\x00\x03\x00\x07\x00\x03\x00\x02",
        7,
    )?;
    // 41 comes before 42 in one entry: revision 0 that replaces 1 of a new model.
    ask(rt, "revision 0 for 1", b"\x00\x07\x00\x00\x00\x01", 7)
}

// Refusal 42: what is replaced is not the current revision.
fn replaced_revisions(rt: &impl Print) -> io::Result<()> {
    ask(rt, "new model, not 0", b"\x00\x07\x00\x01\x00\x02", 7)?;
    ask(rt, "in place of itself", b"\x00\x07\x00\x01\x00\x01", 7)?;
    // A second first entry.
    ask(
        rt,
        "known model, 0",
        b"\x00\x07\x00\x01\x00\x00\x00\x07\x00\x02\x00\x00",
        7,
    )?;
    // Revision 1 was replaced by 2 already.
    ask(
        rt,
        "not the current one",
        b"\x00\x07\x00\x01\x00\x00\x00\x07\x00\x02\x00\x01\x00\x07\x00\x03\x00\x01",
        7,
    )?;
    // Revision 1 is current, but of model 7.
    ask(
        rt,
        "another model's",
        b"\x00\x07\x00\x01\x00\x00\x00\x09\x00\x02\x00\x01",
        7,
    )
}

// The first bad entry from the front decides, whichever model it is of.
fn first_bad_entry(rt: &impl Print) -> io::Result<()> {
    // 42, then 41.
    ask(
        rt,
        "42 before 41",
        b"\x00\x07\x00\x01\x00\x02\x00\x09\x00\x00\x00\x00",
        7,
    )?;
    // 41, then 42.
    ask(
        rt,
        "41 before 42",
        b"\x00\x07\x00\x00\x00\x00\x00\x09\x00\x01\x00\x02",
        7,
    )?;
    // 41, then a cut entry.
    ask(rt, "41 before 40", b"\x00\x07\x00\x00\x00\x00\x00", 7)?;
    // Model 7 is in order, model 9 is not.
    ask(
        rt,
        "bad entry of model 9",
        b"\x00\x07\x00\x01\x00\x00\x00\x09\x00\x00\x00\x00",
        7,
    )
}

fn main(rt: HostRuntime) -> io::Result<()> {
    accepted(&rt)?;
    two_models(&rt)?;
    cut_entries(&rt)?;
    listed_revisions(&rt)?;
    replaced_revisions(&rt)?;
    first_bad_entry(&rt)
}
