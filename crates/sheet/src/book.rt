// A book of sheets, walked from its end.
ghost use Rattle.std.specs.Prelude.{◌≡◌};
ghost use Rattle.sheet.specs.Trailer.{Bytes};
ghost use Rattle.sheet.specs.Book.{walked_of};
ghost use Rattle.sheet.specs.Told.{told_walk};

use super::outcome::Sheet;
use super::refusals::Refusal;
use super::trailer;

// The sheet nearest the end first; each step takes the trailer's answer apart, and leaves with its number on refusal, the form that 01 names.
pub fn walk(book: &[u8]) -> Result<usize, Refusal>
    ensures value { told_walk result ≡ walked_of book.now }
    ensures lent { Bytes book.now }
{
    let mut rest = book;
    let mut sheets = 0;
    while !rest.is_empty() {
        match trailer::trailer(rest) {
            Ok(Sheet { before, .. }) => {
                rest = &rest[..before];
                sheets += 1;
            }
            Err(refusal) => return Err(refusal),
        }
    }
    Ok(sheets)
}
