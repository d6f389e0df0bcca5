// The two strands of a ring.
ghost use Rattle.std.specs.Prelude.{◌≡◌, ◌<◌};
ghost use Rattle.ring.specs.Numbered.{strand_number, strand_numbered};
ghost use Rattle.ring.specs.OnStrand.{place_on, shown_on};

use super::facing::look_up;
use super::refusals::Refusal;

// The ring as given, strand 0, and the opposite strand, 1.
#[derive(Clone, Copy, Debug, PartialEq, Eq)]
pub enum Strand {
    Given,
    Opposite,
}

impl From<Strand> for u8 {
    ghost from_gives = { λ strand n. n ≡ strand_number strand };

    fn from(strand: Strand) -> u8 {
        match strand {
            Strand::Given => 0,
            Strand::Opposite => 1,
        }
    }
}

// A number of 2 or more is no strand's, and no ring has a key there. A sheet counts such a byte among its wrong marks.
impl TryFrom<u8> for Strand {
    type Error = Refusal;

    ghost try_from_gives = { λ n r. r ≡ strand_numbered n };

    fn try_from(number: u8) -> Result<Strand, Refusal> {
        match number {
            0 => Ok(Strand::Given),
            1 => Ok(Strand::Opposite),
            _ => Err(Refusal::NoKey),
        }
    }
}

impl Strand {
    // Where letter `i` of the strand stands in a ring of n letters: letter i of the opposite strand is the one that faces letter n - 1 - i.
    #[inline(always)]
    pub(crate) fn place(self, n: usize, i: usize) -> usize
        requires { i < n }
        ensures { (result ≡ place_on (strand_number self) n i) × (result < n) }
    {
        match self {
            Strand::Given => i,
            Strand::Opposite => n - 1 - i,
        }
    }

    // A letter of the ring as it is read on the strand.
    #[inline(always)]
    pub(crate) fn shown(self, a: u8) -> u8
        ensures { result ≡ shown_on (strand_number self) a }
    {
        match self {
            Strand::Given => a,
            Strand::Opposite => look_up(a),
        }
    }
}
