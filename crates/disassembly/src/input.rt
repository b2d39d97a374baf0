// The bytes that are to be listed: those of a word begun, and behind them those of a piece.
ghost use Rattle.std.specs.Prelude.{◌≡◌, ℕ, List, ◌+◌, ◌^◌, ◌<◌, ◌≤◌, ◌++◌, length, take, drop, slice_index};
ghost use Rattle.disassembly.specs.Pieces.{pending, word_from};

use crate::Begun;
use std::marker::Model;

#[derive(Drop)]
pub(crate) struct Input<'a> {
    pub(crate) begun: Begun,
    pub(crate) piece: &'a [u8],
}

impl<'a> Model for Input<'a> {
    ghost Value = { List ℕ };

    ghost view = { λ s. pending s.begun ++ s.piece.now };
}

impl Begun {
    // How many bytes have come.
    pub(crate) fn count(self) -> usize
        ensures answer { result ≡ length (pending self) }
        ensures upper_bound { result ≤ 3 }
    {
        match self {
            Begun::Nothing => 0,
            Begun::One(_) => 1,
            Begun::Two(_, _) => 2,
            Begun::Three(_, _, _) => 3,
        }
    }

    // Those bytes, and 0 for each that has not come.
    fn bytes(self) -> [u8; 3]
        ensures { take (length (pending self)) result ≡ pending self }
    {
        match self {
            Begun::Nothing => [0, 0, 0],
            Begun::One(a) => [a, 0, 0],
            Begun::Two(a, b) => [a, b, 0],
            Begun::Three(a, b, c) => [a, b, c],
        }
    }
}

impl<'a> Input<'a> {
    pub(crate) fn len(&self) -> usize
        ensures { result ≡ length self.now }
    {
        self.begun.count() + self.piece.len()
    }

    // The word whose bytes, the lowest first, stand from i on.
    #[tactic(auto, unfolding(storage::specs::Bytes::word))]
    pub(crate) fn word_at(&self, i: usize) -> u32
        requires { (i + 4 ≤ length self.now) × (length self.now < 2 ^ 64) }
        ensures { result ≡ word_from self.now i }
    {
        u32::from_le_bytes([
            self.byte_at(i),
            self.byte_at(i + 1),
            self.byte_at(i + 2),
            self.byte_at(i + 3),
        ])
    }

    // What is left from i on, three bytes at most.
    pub(crate) fn rest_from(&self, i: usize) -> Begun
        requires i_in_bounds { i ≤ length self.now }
        requires len_bound { length self.now < i + 4 }
        ensures { pending result ≡ drop i self.now }
    {
        match self.len() - i {
            0 => Begun::Nothing,
            1 => Begun::One(self.byte_at(i)),
            2 => Begun::Two(self.byte_at(i), self.byte_at(i + 1)),
            _ => Begun::Three(self.byte_at(i), self.byte_at(i + 1), self.byte_at(i + 2)),
        }
    }

    // Byte i.
    fn byte_at(&self, i: usize) -> u8
        requires { i < length self.now }
        ensures { result ≡ slice_index self.now i }
    {
        let n = self.begun.count();
        if n <= i {
            return self.piece[i - n];
        }
        self.begun.bytes()[i]
    }
}
