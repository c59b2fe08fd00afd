//! Checks a shape file against a plate list. The arguments: the name of the plate list, the name of the shape file.
#![tactic(auto)]

use console::with_files;
use plates::check_shape;
use std::io;

fn show(rt: &impl Print, list: &[u8], shape: &[u8]) -> io::Result<()> {
    match check_shape(list, shape) {
        Ok(sound) => {
            let ours = if sound.ours { "yes" } else { "no" };
            println!(rt; "sound")?;
            println!(rt; "total {}", sound.total)?;
            println!(rt; "fewest {}", sound.fewest)?;
            println!(rt; "ours {ours}")
        }
        Err(refusal) => println!(rt; "{refusal}"),
    }
}

// Of a longer file only the first 4,096 bytes are read. No accepted list is longer than 876 bytes and no
// sound shape longer than 618, so such a file is refused, by the number that the whole has (`Files.front`).
// One call of what the programs share; each `main` names its own files and sizes.
fn main(rt: HostRuntime) -> io::Result<()> {
    with_files::<4096, 4096, _, _>(&rt, b"plate list", b"shape file", |list, shape| {
        show(&rt, list, shape)
    })
}
