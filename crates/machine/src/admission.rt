// Which words a bench admits: the tests in the paper's order.
ghost use Rattle.std.specs.Prelude.{◌≡◌, true, not, [], ◌∷◌, ◌++◌, ◌≤◌};
ghost use Rattle.std.proofs.Math.Option.{some};
ghost use Rattle.isa.specs.Refusals.{first_failure};
ghost use Rattle.isa.specs.Table.{all_flags};
ghost use Rattle.isa.specs.Answers.{describe, decided};
ghost use Rattle.storage.specs.Sizes.{legal};
ghost use Rattle.storage.specs.Tile.{masked};
ghost use Rattle.machine.specs.Instructions.{modes_of};
ghost use Rattle.machine.specs.Execution.{bench_tests, mode_tests, word_tests, outcome};
ghost use Rattle.machine.specs.Lists.{next_tests};

use crate::clearing::named_cleared;
use crate::{Bench, Modes};
use isa::{Instruction, Refusal};

// Tests 1 to 5. What they make sure of stands in the `requires` behind them, and in no type: it speaks of ZA's length, and ZA is lent
// to be written. A `Bench` is what a caller gives, legal or not.
pub(crate) fn check_bench(bench: Bench, z: usize, p: usize, za: usize) -> Result<(), Refusal>
    ensures { result ≡ outcome (first_failure (bench_tests bench z p za)) }
{
    if !isa::flags_legal(bench.flags) {
        return Err(Refusal::Flags);
    }
    let vb = bench.vb;
    if !storage::is_legal(vb) {
        return Err(Refusal::VectorLength);
    }
    if z != 32 * vb {
        return Err(Refusal::ZLength);
    }
    if p != 2 * vb {
        return Err(Refusal::PLength);
    }
    if za != vb * vb {
        return Err(Refusal::ZaLength);
    }
    Ok(())
}

// Tests 7 to 10 of a word by itself: its instruction, or the refusal. Every tile counts as cleared.
pub(crate) fn admit(bench: Bench, word: u32) -> Result<Instruction, Refusal>
    requires { (bench.flags ≤ all_flags) × (legal bench.vb ≡ true) }
    ensures { result ≡ decided (first_failure (word_tests bench word)) (describe word) }
{
    admit_next(bench, 0xFF, word)
}

// Tests 7 to 10 of a word of a run, then 14, by the mask of the 64-bit tiles that the run has cleared.
pub(crate) fn admit_next(bench: Bench, cleared: u8, word: u32) -> Result<Instruction, Refusal>
    requires { (bench.flags ≤ all_flags) × (legal bench.vb ≡ true) }
    ensures { result ≡ decided (first_failure (next_tests bench (masked cleared) word)) (describe word) }
{
    let i = isa::decode(bench.flags, word)?;
    check_needs(bench, modes_of(i), named_cleared(cleared, i))?;
    Ok(i)
}

// Tests 9, 10 and 14.
fn check_needs(bench: Bench, needs: Modes, cleared: bool) -> Result<(), Refusal>
    ensures { result ≡ outcome (first_failure (mode_tests bench needs ++ (record { fails = not cleared; gives = Refusal.NotCleared } ∷ []))) }
{
    let streaming_off = needs.streaming & !bench.sm;
    let za_off = needs.za & !bench.za;
    if streaming_off {
        return Err(Refusal::StreamingOff);
    }
    if za_off {
        return Err(Refusal::ZaOff);
    }
    if !cleared {
        return Err(Refusal::NotCleared);
    }
    Ok(())
}

// The modes that an instruction needs: an outer product both, ZERO ZA alone.
fn modes_of(i: Instruction) -> Modes
    ensures { result ≡ modes_of (some i) }
{
    match i {
        Instruction::Predicated(_) | Instruction::Quarter(_) => Modes {
            streaming: true,
            za: true,
        },
        Instruction::Zero(_) => Modes {
            streaming: false,
            za: true,
        },
    }
}
