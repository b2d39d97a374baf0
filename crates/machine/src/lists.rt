// Lists of words: a run, which stops at the first refused word, and a play, which goes on.
ghost use Rattle.std.specs.Prelude.{◌≡◌};
ghost use Rattle.std.proofs.Math.Option.{none};
ghost use Rattle.isa.specs.Refusals.{first_failure, refusal_number, number_in, missing_beside};
ghost use Rattle.machine.specs.Machine.{on};
ghost use Rattle.machine.specs.Execution.{machine_tests, outcome};
ghost use Rattle.machine.specs.Lists.{played, start_tests, at_start, end_of, left_at_end, run_of, run_left};
ghost use Rattle.machine.specs.Claims.{run_count, run_number, run_missing};

use crate::admission::check_bench;
use crate::clearing::also_cleared;
use crate::executor::{execute, execute_next};
use crate::{Bench, Ended};
use isa::Refusal;

// The most words that a run takes.
pub const MOST_WORDS: usize = 65536;

// Executes words in turn and leaves the list at the first that is refused.
pub fn run(bench: Bench, z: &[u8], p: &[u8], za: &mut [u8], words: &[u32]) -> Ended
    ensures answer { result ≡ run_of (on bench z.now p.now za.old) words.now }
    ensures za_after { za.new ≡ (run_left (on bench z.now p.now za.old) words.now).za }
    ensures count { result.count ≡ run_count (on bench z.now p.now za.old) words.now }
    ensures number { number_in result.outcome ≡ run_number (on bench z.now p.now za.old) words.now }
    ensures missing { missing_beside result.outcome ≡ run_missing (on bench z.now p.now za.old) words.now }
{
    match check_run(bench, z.len(), p.len(), za.len(), words.len()) {
        Ok(()) => run_words(bench, z, p, za, words),
        Err(r) => Ended {
            count: 0,
            outcome: Err(r),
        },
    }
}

// Tests 1 to 6, of a bench, the lengths of Z, P and ZA and the number of words: whether a run begins.
pub fn check_run(bench: Bench, z: usize, p: usize, za: usize, words: usize) -> Result<(), Refusal>
    ensures answer { result ≡ outcome (first_failure (start_tests bench z p za words)) }
    ensures number { number_in result ≡ refusal_number (first_failure (start_tests bench z p za words)) }
    ensures missing { missing_beside result ≡ 0 }
{
    check_bench(bench, z, p, za)?;
    if MOST_WORDS < words {
        return Err(Refusal::ListLength);
    }
    Ok(())
}

// The words of a run on a bench that passed 1 to 5. Nothing is cleared before the first, whatever ZA holds.
fn run_words(bench: Bench, z: &[u8], p: &[u8], za: &mut [u8], words: &[u32]) -> Ended
    requires { first_failure (machine_tests (on bench z.now p.now za.old)) ≡ none }
    ensures answer { result ≡ end_of (at_start (on bench z.now p.now za.old)) words.now }
    ensures za_after { za.new ≡ (left_at_end (at_start (on bench z.now p.now za.old)) words.now).za }
{
    let mut cleared = 0u8;
    let mut ended = Ended {
        count: words.len(),
        outcome: Ok(()),
    };
    for (i, &word) in words.iter().enumerate() {
        match execute_next(bench, z, p, za, cleared, word) {
            Ok(instruction) => cleared = also_cleared(cleared, instruction),
            Err(r) => {
                ended = Ended {
                    count: i,
                    outcome: Err(r),
                };
                break;
            }
        }
    }
    ended
}

// Executes every word singly; a refused one leaves ZA as it was, and the list goes on.
pub fn play(bench: Bench, z: &[u8], p: &[u8], za: &mut [u8], words: &[u32])
    ensures { za.new ≡ (played (on bench z.now p.now za.old) words.now).za }
{
    for &word in words {
        let _ = execute(bench, z, p, za, word);
    }
}
