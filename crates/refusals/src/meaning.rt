// A refusal as a person reads it.
use isa::Refusal;
use std::fmt;

// Shows a refusal by its number and what it means; beside 8, by the features that the word needs and that are off.
#[derive(Clone, Copy)]
pub struct Told(pub Refusal);

impl fmt::Display for Told {
    // The sentences are the Rust crate's, but for 8.
    fn fmt<W: fmt::Write>(&self, f: &mut fmt::Formatter<W>) -> fmt::Result {
        let Told(refusal) = *self;
        write!(f, "{}: ", isa::number(refusal))?;
        match refusal {
            Refusal::Flags => write!(f, "flags are above 15"),
            Refusal::VectorLength => {
                write!(f, "the vector length is not 16, 32, 64, 128 or 256 bytes")
            }
            Refusal::ZLength => write!(f, "Z does not hold 32 vectors"),
            Refusal::PLength => write!(f, "P does not hold 16 predicates"),
            Refusal::ZaLength => write!(f, "ZA is not a square of the vector length"),
            Refusal::ListLength => write!(f, "the list has more than 65536 words"),
            Refusal::Unlisted => write!(f, "the word is no listed instruction"),
            Refusal::FeatureOff { missing } => write!(f, "needs {}", Features(missing)),
            Refusal::StreamingOff => write!(f, "an outer product needs streaming mode on"),
            Refusal::ZaOff => write!(f, "the word needs ZA on"),
            Refusal::OutOfRange => write!(f, "a field is out of range"),
            Refusal::Room => write!(f, "the room is too short"),
            Refusal::NotText => write!(f, "the line is the text of no listed word"),
            Refusal::NotCleared => {
                write!(
                    f,
                    "the tile has a row that no earlier ZERO of the list cleared"
                )
            }
            Refusal::Version => write!(f, "the file has another version than 1"),
            Refusal::Format => write!(f, "the file is no capture"),
        }
    }
}

// A sum of flags as its features' names, with an "and" between them.
#[derive(Clone, Copy)]
struct Features(u32);

impl fmt::Display for Features {
    fn fmt<W: fmt::Write>(&self, f: &mut fmt::Formatter<W>) -> fmt::Result {
        let mut lead = "";
        for (flag, name) in [(1, "SME"), (2, "I16I64"), (4, "MOP4"), (8, "SME2")] {
            if self.0 & flag != 0 {
                write!(f, "{lead}{name}")?;
                lead = " and ";
            }
        }
        Ok(())
    }
}
