// A byte of a text, with what stands behind it.
ghost use Rattle.std.specs.Prelude.{◌≡◌};
ghost use Rattle.fasta.specs.Lines.{begins};
ghost use Rattle.fasta.specs.Scan.{ends, keeps, turns};

// Whether a text begins with the byte `a`.
pub fn begins_with(text: &[u8], a: u8) -> bool
    ensures { result ≡ begins a text.now }
{
    text.first() == Some(&a)
}

// Whether a line end begins at `b`: LF, or CR with LF behind it.
#[tactic(auto, unfolding(crate::specs::Scan::ends))]
pub fn line_ends(b: u8, behind: &[u8]) -> bool
    ensures { result ≡ ends b behind.now }
{
    b == b'\n' || b == b'\r' && begins_with(behind, b'\n')
}

// Whether `b` is kept as a letter: no space, no tab, and no part of a line end. None of these is above a space.
#[tactic(auto, unfolding(crate::specs::Scan::keeps, crate::specs::Lines::is_blank, crate::specs::Scan::ends))]
pub fn is_kept(b: u8, behind: &[u8]) -> bool
    ensures { result ≡ keeps b behind.now }
{
    b > b' ' || b != b' ' && b != b'\t' && !line_ends(b, behind)
}

// Whether `b` ends a line and a header is next.
#[tactic(auto, unfolding(crate::specs::Scan::turns))]
pub fn header_follows(b: u8, behind: &[u8]) -> bool
    ensures { result ≡ turns b behind.now }
{
    b == b'\n' && begins_with(behind, b'>')
}
