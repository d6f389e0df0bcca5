// The letters kept: a to z as A to Z, without spaces and tabs, and lines without letters passed over.
use super::show::cases;
use shown::Out;

pub fn kept(out: &mut Out) {
    cases(
        out,
        &[
            (b"a to z become A to Z", b">a\nacgtACGT\n", 8),
            (
                b"Spaces and tabs at a line's ends",
                b">a\n \tAC\t \n\tGT ",
                8,
            ),
            (b"Spaces and tabs within a line", b">a\nA C\tG  \tT\n", 8),
            (b"A blank between CR and LF", b">a\nAC\r \nGT\n", 8),
        ],
    );
}

pub fn passed(out: &mut Out) {
    cases(
        out,
        &[
            (b"Empty lines between letters", b">a\n\nAC\n\n\nGT\n", 8),
            (
                b"Lines of blanks between letters",
                b">a\nAC\n \t \n\t\r\nGT\n",
                8,
            ),
            (
                b"Empty lines and blanks before the next header",
                b">a\nAC\n\n \t\n>b\nGT\n",
                8,
            ),
        ],
    );
}

pub fn before(out: &mut Out) {
    cases(
        out,
        &[
            (b"Empty lines before the header", b"\n\r\n>a\nAC\n", 8),
            (
                b"Lines of blanks before the header",
                b" \n\t \r\n>a\nAC\n",
                8,
            ),
        ],
    );
}
