// One word: the tests, then what its instruction does to ZA.
ghost use Rattle.std.specs.Prelude.{◌≡◌, true};
ghost use Rattle.std.proofs.Math.Option.{none, some};
ghost use Rattle.isa.specs.Refusals.{first_failure, number_in, missing_beside};
ghost use Rattle.isa.specs.Table.{in_range};
ghost use Rattle.isa.specs.Answers.{describe, decided};
ghost use Rattle.storage.specs.Tile.{masked};
ghost use Rattle.machine.specs.Machine.{on};
ghost use Rattle.machine.specs.Execution.{machine_tests, word_refusal, left_by, word_left, refusal_of, effect, after, outcome};
ghost use Rattle.machine.specs.Lists.{next_tests};
ghost use Rattle.machine.specs.Claims.{execute_number, execute_missing};

use crate::Bench;
use crate::admission::{admit_next, check_bench};
use crate::operands::{predicated_outer, quarter_outer};
use isa::{Instruction, Refusal};

// Executes a word on ZA, or refuses it and leaves ZA as it was.
pub fn execute(bench: Bench, z: &[u8], p: &[u8], za: &mut [u8], word: u32) -> Result<(), Refusal>
    ensures answer { result ≡ outcome (refusal_of (on bench z.now p.now za.old) word) }
    ensures za_after { za.new ≡ (after (on bench z.now p.now za.old) word).za }
    ensures number { number_in result ≡ execute_number (on bench z.now p.now za.old) word }
    ensures missing { missing_beside result ≡ execute_missing (on bench z.now p.now za.old) word }
{
    check_bench(bench, z.len(), p.len(), za.len())?;
    execute_word(bench, z, p, za, word)
}

// A word by itself, on a bench that passed 1 to 5. Every tile counts as cleared.
fn execute_word(bench: Bench, z: &[u8], p: &[u8], za: &mut [u8], word: u32) -> Result<(), Refusal>
    requires { first_failure (machine_tests (on bench z.now p.now za.old)) ≡ none }
    ensures answer { result ≡ outcome (word_refusal (on bench z.now p.now za.old) word) }
    ensures za_after { za.new ≡ (word_left (on bench z.now p.now za.old) word).za }
{
    execute_next(bench, z, p, za, 0xFF, word)?;
    Ok(())
}

// The next word of a run, by the mask of the 64-bit tiles that it has cleared: tests 7 to 10 and 14, then its instruction, which
// is the answer.
pub(crate) fn execute_next(
    bench: Bench,
    z: &[u8],
    p: &[u8],
    za: &mut [u8],
    cleared: u8,
    word: u32,
) -> Result<Instruction, Refusal>
    requires { first_failure (machine_tests (on bench z.now p.now za.old)) ≡ none }
    ensures answer { result ≡ decided (first_failure (next_tests bench (masked cleared) word)) (describe word) }
    ensures za_after { za.new ≡ (left_by (on bench z.now p.now za.old) word (first_failure (next_tests bench (masked cleared) word))).za }
{
    let i = admit_next(bench, cleared, word)?;
    perform(bench, i, z, p, za);
    Ok(i)
}

// What an admitted instruction does to ZA.
fn perform(bench: Bench, i: Instruction, z: &[u8], p: &[u8], za: &mut [u8])
    requires bench_passes { first_failure (machine_tests (on bench z.now p.now za.old)) ≡ none }
    requires ranged { in_range i ≡ true }
    ensures { za.new ≡ (effect (on bench z.now p.now za.old) (some i)).za }
{
    let vb = bench.vb;
    match i {
        Instruction::Predicated(product) => {
            outer::update(vb, predicated_outer(product), z, p, za);
        }
        Instruction::Quarter(product) => outer::update(vb, quarter_outer(product), z, p, za),
        Instruction::Zero(mask) => outer::clear_tiles(vb, mask, za),
    }
}
