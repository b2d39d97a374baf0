// The numbers of the refusals, and what 8 hands back (document 01, "Refusal numbers", and document 02, C-11, C-15, C-17 and C-20).
ghost use Rattle.std.specs.Prelude.{◌≡◌};
ghost use Rattle.isa.specs.Refusals.{number as number_of, missing_in};

use crate::Refusal;

// The paper's number of a refusal; 0 is kept for none. A name says more than u32::from would.
pub fn number(r: Refusal) -> u32
    ensures { result ≡ number_of r }
{
    match r {
        Refusal::Flags => 1,
        Refusal::VectorLength => 2,
        Refusal::ZLength => 3,
        Refusal::PLength => 4,
        Refusal::ZaLength => 5,
        Refusal::ListLength => 6,
        Refusal::Unlisted => 7,
        Refusal::FeatureOff { .. } => 8,
        Refusal::StreamingOff => 9,
        Refusal::ZaOff => 10,
        Refusal::OutOfRange => 11,
        Refusal::Room => 12,
        Refusal::NotText => 13,
        Refusal::NotCleared => 14,
        Refusal::Version => 15,
        Refusal::Format => 16,
    }
}

// The sum of the flags that the word needs and that are off; 0 beside any other refusal than 8.
pub fn missing_in(r: Refusal) -> u32
    ensures { result ≡ missing_in r }
{
    match r {
        Refusal::FeatureOff { missing } => missing,
        _ => 0,
    }
}
