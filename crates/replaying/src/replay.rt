//! The journal's lines over a plate list, one at a time.
ghost use Rattle.std.specs.Prelude.{◌≡◌, ◌≤◌, ◌<◌, length, take, IfOk};
ghost use Rattle.refusals.specs.Numbers.{fault_of};
ghost use Rattle.plates.specs.Files.{list_fault};
ghost use Rattle.replaying.specs.Lines.{step_in};
ghost use Rattle.replaying.specs.Replays.{stand, going, on_line, Replayed};
ghost use Rattle.replaying.specs.declared.replay.Stop.TheVariants.{Refused};

use crate::lines::step_in;
use edits::edit_list;
use plates::reading::read_list;
use refusals::Refusal;

/// Why a replay ends before its journal does: a step is refused, or a line is no step.
#[derive(Clone, Copy, Debug, PartialEq, Eq)]
pub enum Stop {
    Refused(Refusal),
    NoStep,
}

impl From<Refusal> for Stop {
    ghost from_gives = { λ refusal stop. stop ≡ Refused refusal };

    fn from(refusal: Refusal) -> Stop {
        Stop::Refused(refusal)
    }
}

/// An accepted list, that after the last step that was taken, and the number of lines gone over.
// An array with its length: `edit_list` writes into lent memory and gives the length, and a list of fixed capacity lends no place
// behind its last element.
#[derive(Clone, Copy)]
pub struct Replay {
    list: [u8; 1024],
    long: usize,
    line: usize,
    ghost fits: { long ≤ 1024 },
    ghost accepted: { list_fault (take long list) ≡ 0 },
}

impl Replay {
    /// Before the first line. A list that is refused has no replay.
    pub fn start(list: &[u8]) -> Result<Replay, Refusal>
        requires { length list.now ≤ 1024 }
        ensures number { fault_of result ≡ list_fault list.now }
        ensures begun { IfOk result (λ replay. (take replay.long replay.list ≡ list.now) × (replay.line ≡ 0)) }
    {
        read_list(list)?;
        let mut held = [0; 1024];
        held[..list.len()].copy_from_slice(list);
        Ok(Replay {
            list: held,
            long: list.len(),
            line: 0,
        })
    }

    // The list so far. A front of an array like the turns of a plan in `texts`: one function for both would stand below both crates for one line.
    pub fn list(&self) -> &[u8]
        ensures { result.now ≡ take self.now.long self.now.list }
    {
        &self.list[..self.long]
    }

    pub fn line(&self) -> usize
        ensures { result ≡ self.now.line }
    {
        self.line
    }

    // No list after a step has more than 793 bytes (`AfterStep.longest`), so 16 never comes.
    fn take_line(&mut self, line: &[u8]) -> Result<(), Stop>
        requires { self.old.line < 65536 }
        ensures { stand (take self.new.long self.new.list) self.new.line result ≡ on_line (going (take self.old.long self.old.list) self.old.line) (step_in line.now) }
    {
        self.line += 1;
        let step = step_in(line).ok_or(Stop::NoStep)?;
        let mut after = [0; 1024];
        let long = edit_list(&self.list[..self.long], step, &mut after)?;
        *self = Replay {
            list: after,
            long,
            line: self.line,
        };
        Ok(())
    }

    /// Takes line after line, up to the first that is refused or no step.
    pub fn take_lines(&mut self, journal: &[u8]) -> Result<(), Stop>
        requires { (self.old.line ≡ 0) × (length journal.now ≤ 65535) }
        ensures { Replayed (take self.old.long self.old.list) journal.now (stand (take self.new.long self.new.list) self.new.line result) }
    {
        for line in journal.split_inclusive(|byte| *byte == b'\n') {
            self.take_line(line.strip_suffix(b"\n").unwrap_or(line))?;
        }
        Ok(())
    }
}
