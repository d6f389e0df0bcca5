// Scans of a text: to the first header, to a line's end, to the next header.
ghost use Rattle.std.specs.Prelude.{◌≡◌, ◌+◌, ◌-◌, ◌<◌, [], length, MatchOption};
ghost use Rattle.fasta.specs.Answers.{part};
ghost use Rattle.fasta.specs.Scan.{HeaderLine, Stands, end_in, header_from, rest_in};

use super::answer::Part;
use super::byte::{begins_with, header_follows, is_kept};

// A header line of a text: where its mark stands, and where the line ends.
#[derive(Clone, Copy)]
pub struct HeaderAt {
    pub mark: usize,
    pub end: usize,
    ghost marked: { mark < end },
}

impl HeaderAt {
    // The line without its mark and its end.
    pub fn part(self) -> Part
        ensures { result ≡ part (self.mark + 1) (self.end - (self.mark + 1)) }
    {
        let offset = self.mark + 1;
        Part {
            offset,
            size: self.end - offset,
        }
    }
}

// Where the first header stands with nothing but empty lines before it.
pub fn find_header(text: &[u8]) -> Option<usize>
    ensures { MatchOption result (header_from text.now ≡ []) (λ mark. Stands text.now (header_from text.now) mark × (mark < length text.now)) }
{
    if begins_with(text, b'>') {
        return Some(0);
    }
    for (i, b) in text.iter().enumerate() {
        let behind = &text[i + 1..];
        if is_kept(*b, behind) {
            return None;
        }
        if header_follows(*b, behind) {
            return Some(i + 1);
        }
    }
    None
}

// The first header line. Inlined, it hands its answer back in registers.
#[inline(always)]
pub fn find_header_line(text: &[u8]) -> Option<HeaderAt>
    ensures { MatchOption result (header_from text.now ≡ []) (λ head. HeaderLine text.now head.mark head.end) }
{
    let mark = find_header(text)?;
    let end = mark + line_end(&text[mark..]);
    Some(HeaderAt { mark, end })
}

// Where the first line ends; a last line may end with the text alone. LF alone is looked for, since each line end has one: where a CR
// stands directly before the first LF, the end begins at that CR.
fn line_end(line: &[u8]) -> usize
    ensures { Stands line.now (end_in line.now) result }
{
    for (i, b) in line.iter().enumerate() {
        if *b == b'\n' {
            if 0 < i && line[i - 1] == b'\r' {
                return i - 1;
            }
            return i;
        }
    }
    line.len()
}

// Where the next header stands behind the first line, the text's end where there is none: what remains is empty then. The mark is tested
// first, since it is the rarer, and the byte before it after that; `header_follows` asks in the other order.
pub fn next_header(text: &[u8]) -> usize
    requires { 0 < length text.now }
    ensures { Stands text.now (rest_in text.now) result }
{
    for i in 1..text.len() {
        if text[i] == b'>' && text[i - 1] == b'\n' {
            return i;
        }
    }
    text.len()
}
