// A ring on one of its strands, read where it stands: nothing is copied.
ghost use Rattle.std.specs.Prelude.{◌≡◌, ◌+◌, ◌^◌, ◌<◌, ◌≤◌, List, ℕ, length, take, drop, get_or};
ghost use Rattle.words.specs.Keys.Strand.{opposite, on_strand};
ghost use Rattle.words.specs.Rings.Ring.{around};
ghost use Rattle.ring.specs.Judging.{over};
ghost use Rattle.ring.specs.Numbered.{strand_number};
ghost use Rattle.std.specs.Ordering.{MatchOrdering};

use super::facing::look_up;
use super::strand::Strand;
use std::cmp::Ordering;
use std::marker::Model;

// The letters of the ring as given, and the strand that they are read on; a contract sees the letters of that strand. What a loop calls for
// each letter is inlined. A whole ring has a letter, but `back` and `front` may be empty, so that is no part of the type.
#[derive(Drop)]
pub struct Side<'a> {
    letters: &'a [u8],
    strand: Strand,
}

impl<'a> Model for Side<'a> {
    ghost Value = { List ℕ };

    ghost view = { λ s. on_strand (strand_number s.strand) s.letters.now };
}

impl<'a> Side<'a> {
    #[inline(always)]
    pub fn new(letters: &'a [u8], strand: Strand) -> Side<'a>
        ensures value { result ≡ on_strand (strand_number strand) letters.now }
        ensures as_long { length result ≡ length letters.now }
    {
        Side { letters, strand }
    }

    // The ring as given.
    #[inline(always)]
    pub fn given(letters: &'a [u8]) -> Side<'a>
        ensures value { result ≡ letters.now }
        ensures as_long { length result ≡ length letters.now }
    {
        Side::new(letters, Strand::Given)
    }

    // Its opposite strand.
    #[inline(always)]
    pub fn opposite(letters: &'a [u8]) -> Side<'a>
        ensures value { result ≡ opposite letters.now }
        ensures as_long { length result ≡ length letters.now }
    {
        Side::new(letters, Strand::Opposite)
    }

    #[inline(always)]
    pub fn len(&self) -> usize
        ensures value { result ≡ length self.now }
        ensures twice { length self.now + length self.now < 2 ^ 64 }
    {
        self.letters.len()
    }

    // The letter at position `i`. One test of the strand serves its place and its letter.
    #[inline(always)]
    pub fn letter(&self, i: usize) -> u8
        requires { i < length self.now }
        ensures { result ≡ get_or self.now i 0 }
    {
        match self.strand {
            Strand::Given => self.letters[i],
            Strand::Opposite => look_up(self.letters[self.letters.len() - 1 - i]),
        }
    }

    // Letter `k` of the reading at `at`, round the ring.
    #[inline(always)]
    pub fn around(&self, at: usize, k: usize) -> u8
        requires { at + k < length self.now + length self.now }
        ensures { result ≡ around self.now (at + k) }
    {
        let n = self.len();
        let i = at + k;
        if i < n {
            return self.letter(i);
        }
        self.letter(i - n)
    }

    // How the letter at `j` compares with the one at `k`. Two letters differ on one strand just where they do on the other, so only two that
    // differ are looked up.
    #[inline(always)]
    pub fn compare(&self, j: usize, k: usize) -> Ordering
        requires { (j < length self.now) × (k < length self.now) }
        ensures { let a = get_or self.now j 0 in let b = get_or self.now k 0 in MatchOrdering result (a < b) (a ≡ b) (b < a) }
    {
        let n = self.letters.len();
        let a = self.letters[self.strand.place(n, j)];
        let b = self.letters[self.strand.place(n, k)];
        if a == b {
            return Ordering::Equal;
        }
        self.strand.shown(a).cmp(&self.strand.shown(b))
    }

    // The letters from position `m` on.
    pub fn back(&self, m: usize) -> Side<'a>
        requires { m ≤ length self.now }
        ensures { result ≡ drop m self.now }
    {
        let letters = match self.strand {
            Strand::Given => &self.letters[m..],
            Strand::Opposite => &self.letters[..self.letters.len() - m],
        };
        Side::new(letters, self.strand)
    }

    // The letters before position `m`.
    pub fn front(&self, m: usize) -> Side<'a>
        requires { m ≤ length self.now }
        ensures { result ≡ take m self.now }
    {
        let letters = match self.strand {
            Strand::Given => &self.letters[..m],
            Strand::Opposite => &self.letters[self.letters.len() - m..],
        };
        Side::new(letters, self.strand)
    }

    // Writes the letters to the front of a room.
    pub fn copy(&self, to: &mut [u8])
        requires { length self.now ≤ length to.old }
        ensures { to.new ≡ over self.now to.old }
    {
        let n = self.len();
        for i in 0..n {
            to[i] = self.letter(i);
        }
    }
}
