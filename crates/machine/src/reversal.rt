// Add and subtract exchanged in a word.
ghost use Rattle.std.specs.Prelude.{◌≡◌, true, cond, ◌&&◌, ◌≤◌};
ghost use Rattle.std.proofs.Math.Option.{some};
ghost use Rattle.isa.specs.Refusals.{first_failure};
ghost use Rattle.isa.specs.Table.{all_flags};
ghost use Rattle.isa.specs.Answers.{describe};
ghost use Rattle.storage.specs.Sizes.{legal};
ghost use Rattle.machine.specs.Machine.{on};
ghost use Rattle.machine.specs.Instructions.{has_opposite};
ghost use Rattle.machine.specs.Execution.{word_tests, none?};
ghost use Rattle.machine.specs.Exchange.{flip_s, exchanged};

use crate::Bench;
use crate::admission::{admit, check_bench};
use isa::Instruction;

// The word with add and subtract exchanged, where it is one that `execute` accepts and that has an opposite; else the word.
pub fn exchange(bench: Bench, z: &[u8], p: &[u8], za: &[u8], word: u32) -> u32
    ensures { result ≡ exchanged (on bench z.now p.now za.now) word }
{
    match check_bench(bench, z.len(), p.len(), za.len()) {
        Ok(()) => exchange_word(bench, word),
        Err(_) => word,
    }
}

// The same on a bench that passed 1 to 5.
fn exchange_word(bench: Bench, word: u32) -> u32
    requires { (bench.flags ≤ all_flags) × (legal bench.vb ≡ true) }
    ensures { result ≡ cond (none? (first_failure (word_tests bench word)) && has_opposite (describe word)) (flip_s word) word }
{
    match admit(bench, word) {
        Ok(i) if has_opposite(i) => flip_s(word),
        _ => word,
    }
}

fn has_opposite(i: Instruction) -> bool
    ensures { result ≡ has_opposite (some i) }
{
    match i {
        Instruction::Predicated(_) | Instruction::Quarter(_) => true,
        Instruction::Zero(_) => false,
    }
}

// Bit 4 is S in every outer product.
fn flip_s(word: u32) -> u32
    ensures { result ≡ flip_s word }
{
    if word / 16 % 2 == 1 {
        word - 16
    } else {
        word + 16
    }
}
