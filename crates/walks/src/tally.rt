// Counts of updates and of bytes.
use checks::differing;
use std::fmt;

// How many updates were compared, how many bytes of ZA they changed, and in how many the two walks differ.
#[derive(Clone, Copy, Default)]
pub struct Tally {
    pub updates: u64,
    pub changed: u64,
    pub differing: u64,
}

impl Tally {
    // The tally of what one walk left in za and the other in plain.
    pub(crate) fn of_bytes(za: &[u8], plain: &[u8], start: &[u8]) -> Tally {
        Tally {
            updates: 1,
            changed: differing(za, start),
            differing: differing(za, plain),
        }
    }

    pub(crate) fn added(self, other: Tally) -> Tally {
        Tally {
            updates: self.updates.wrapping_add(other.updates),
            changed: self.changed.wrapping_add(other.changed),
            differing: self.differing.wrapping_add(other.differing),
        }
    }
}

impl fmt::Display for Tally {
    fn fmt<W: fmt::Write>(&self, f: &mut fmt::Formatter<W>) -> fmt::Result {
        write!(
            f,
            "updates {}, bytes changed {}, bytes that differ {}",
            self.updates, self.changed, self.differing
        )
    }
}
