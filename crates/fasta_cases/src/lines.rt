// Line ends: LF, CR LF, and a last line without an end.
use super::show::cases;
use shown::Out;

pub fn ends(out: &mut Out) {
    cases(
        out,
        &[
            (b"Lines ended by LF", b">a\nAC\nGT\n", 4),
            (b"Lines ended by CR LF", b">a\r\nAC\r\nGT\r\n", 4),
            (b"A last line without an end", b">a\nAC\nGT", 4),
            (b"A last line of blanks without an end", b">a\nAC\n \t", 4),
            (b"A header line without an end", b">a", 4),
        ],
    );
}

pub fn mixed(out: &mut Out) {
    cases(
        out,
        &[
            (
                b"Both ends in one text, and a next header",
                b">a\r\nAC\nGT\r\n>b\r\nGG\n",
                4,
            ),
            (b"A next header without an end", b">a\nAC\n>b", 4),
            (b"Two ends at once", b">a\n\nAC\r\n\r\nGT\n\n", 4),
        ],
    );
}
