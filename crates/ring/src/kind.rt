// Kinds of rings: which there are, which have an opposite strand, and what their letters are.
ghost use Rattle.std.specs.Prelude.{◌≡◌};
ghost use Rattle.words.specs.Keys.Kind.{is_letter, stranded, strands};
ghost use Rattle.ring.specs.Letters.{letter_table};
ghost use Rattle.ring.specs.Numbered.{kind_number, kind_numbered};

use super::refusals::Refusal;

// A feature ring, where every byte is a letter; a base ring, of A, C, G, T; a base ring with uncertain letters, of the fifteen of IUPAC.
#[derive(Clone, Copy, Debug, PartialEq, Eq)]
pub enum Kind {
    Feature,
    Base,
    Iupac,
}

impl From<Kind> for u8 {
    ghost from_gives = { λ kind n. n ≡ kind_number kind };

    fn from(kind: Kind) -> u8 {
        match kind {
            Kind::Feature => 0,
            Kind::Base => 1,
            Kind::Iupac => 2,
        }
    }
}

impl TryFrom<u8> for Kind {
    type Error = Refusal;

    ghost try_from_gives = { λ n r. r ≡ kind_numbered n };

    fn try_from(number: u8) -> Result<Kind, Refusal> {
        match number {
            0 => Ok(Kind::Feature),
            1 => Ok(Kind::Base),
            2 => Ok(Kind::Iupac),
            _ => Err(Refusal::UnknownKind),
        }
    }
}

impl Kind {
    // Whether rings of the kind have an opposite strand.
    pub(crate) fn has_opposite(self) -> bool
        ensures { result ≡ stranded (kind_number self) }
    {
        match self {
            Kind::Feature => false,
            Kind::Base | Kind::Iupac => true,
        }
    }

    // Whether a byte is a letter of the kind, by the table of letters; of a feature ring every byte is one.
    pub(crate) fn has_letter(self, letters: &[u8; 256], a: u8) -> bool
        requires { letters.now ≡ letter_table }
        ensures { result ≡ is_letter (kind_number self) a }
    {
        match self {
            Kind::Feature => true,
            Kind::Base => letters[a as usize] & BASE_BIT != 0,
            Kind::Iupac => letters[a as usize] & IUPAC_BIT != 0,
        }
    }
}

// How many strands rings of a kind have, 0 for a kind that is none: a count, which C is told.
pub fn strands_of(kind: u8) -> u8
    ensures { result ≡ strands kind }
{
    let Ok(kind) = Kind::try_from(kind) else {
        return 0;
    };
    if kind.has_opposite() {
        return 2;
    }
    1
}

// In the table of letters, a table of bytes: the bit of kind 1, that of kind 2, and both.
const BASE_BIT: u8 = 1;

const IUPAC_BIT: u8 = 2;

const BOTH: u8 = BASE_BIT + IUPAC_BIT;

// The table of letters, laid out once before a loop (as a static it would be 256 numbers of which fifteen matter): the fifteen letters have the
// bit of kind 2, and four of them that of kind 1 too.
pub fn letter_table() -> [u8; 256]
    ensures { result ≡ letter_table }
{
    let mut table = [0; 256];
    table[b'A' as usize] = BOTH;
    table[b'C' as usize] = BOTH;
    table[b'G' as usize] = BOTH;
    table[b'T' as usize] = BOTH;
    table[b'R' as usize] = IUPAC_BIT;
    table[b'Y' as usize] = IUPAC_BIT;
    table[b'S' as usize] = IUPAC_BIT;
    table[b'W' as usize] = IUPAC_BIT;
    table[b'K' as usize] = IUPAC_BIT;
    table[b'M' as usize] = IUPAC_BIT;
    table[b'B' as usize] = IUPAC_BIT;
    table[b'D' as usize] = IUPAC_BIT;
    table[b'H' as usize] = IUPAC_BIT;
    table[b'V' as usize] = IUPAC_BIT;
    table[b'N' as usize] = IUPAC_BIT;
    table
}
