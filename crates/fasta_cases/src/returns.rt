// A CR without an LF behind it is no line end: a letter of its line, or a byte of its header.
use super::show::cases;
use shown::Out;

pub fn letters(out: &mut Out) {
    cases(
        out,
        &[
            (b"A lone CR is a letter", b">a\nAC\rGT\n", 8),
            (b"A lone CR ends the text", b">a\nAC\r", 8),
            (
                b"CR CR LF: the first CR is a letter",
                b">a\nAC\r\r\nGT\n",
                8,
            ),
            (b"CR alone in a line", b">a\nAC\n\r\r\nGT\n", 8),
        ],
    );
}

pub fn lines(out: &mut Out) {
    cases(
        out,
        &[
            (b"LF CR: the CR is a letter", b">a\nAC\n\rGT\n", 8),
            (b"A mark behind a lone CR", b">a\nAC\r>b\nGT\n", 8),
            (b"A lone CR before the header", b"\r>a\nAC\n", 8),
            (b"A line of CR LF before the header", b"\r\n>a\nAC\n", 8),
        ],
    );
}

pub fn headers(out: &mut Out) {
    cases(
        out,
        &[
            (b"A lone CR in a header", b">a\rb\nAC\n", 8),
            (b"CR CR LF behind a header", b">a\r\r\nAC\n", 8),
            (b"A lone CR ends a header and the text", b">a\r", 8),
        ],
    );
}
