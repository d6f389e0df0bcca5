// The parts of a text by its first record: its header, and the text that remains.
ghost use Rattle.std.specs.Prelude.{◌≡◌, ◌+◌};
ghost use Rattle.fasta.specs.Parts.{header_of, header_at, rest_of, rest_at};
ghost use Rattle.fasta.specs.Answers.{found_of};
ghost use Rattle.fasta.specs.Told.{told_found};

use super::answer::{Part, Parts};
use super::scan::{find_header, find_header_line, next_header};

// The header line without its mark and its end; an empty part at the front where there is no record, as 02 has it.
pub fn header(text: &[u8]) -> &[u8]
    ensures value { result.now ≡ header_of text.now }
    ensures place { (result.ref_ptr.0 ≡ text.entry.ref_ptr.0) × (result.ref_ptr.1 ≡ text.entry.ref_ptr.1 + header_at text.now) }
{
    let Some(head) = find_header_line(text) else {
        return &text[..0];
    };
    &text[head.mark + 1..head.end]
}

// The text from the next header on; an empty part at the front where there is no record, as 02 has it.
pub fn rest(text: &[u8]) -> &[u8]
    ensures value { result.now ≡ rest_of text.now }
    ensures place { (result.ref_ptr.0 ≡ text.entry.ref_ptr.0) × (result.ref_ptr.1 ≡ text.entry.ref_ptr.1 + rest_at text.now) }
{
    let Some(mark) = find_header(text) else {
        return &text[..0];
    };
    let next = mark + next_header(&text[mark..]);
    &text[next..]
}

// Where both stand; none where there is no record. Each of the three says in a line where the next header stands: a function for it would have
// the contract of `next_header` over again.
pub fn find(text: &[u8]) -> Option<Parts>
    ensures { told_found result ≡ found_of text.now }
{
    let head = find_header_line(text)?;
    let next = head.mark + next_header(&text[head.mark..]);
    Some(Parts {
        header: head.part(),
        rest: Part {
            offset: next,
            size: text.len() - next,
        },
    })
}
