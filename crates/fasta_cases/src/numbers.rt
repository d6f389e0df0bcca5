// The numbers 8, 1 and 3.
use super::show::cases;
use shown::Out;

pub fn nothing(out: &mut Out) {
    cases(
        out,
        &[
            (b"8: no text", b"", 4),
            (b"8: no text and no room", b"", 0),
            (b"8: empty lines alone", b"\n\r\n\n", 4),
            (b"8: blanks alone", b" \t", 4),
        ],
    );
}

pub fn early(out: &mut Out) {
    cases(
        out,
        &[
            (b"8: letters before a header", b"AC\n>a\nGT\n", 4),
            (b"8: a letter behind empty lines", b"\n \n A\n>a\nGT\n", 4),
            (b"8: letters alone", b"ACGT", 4),
            (b"8: a remark before a header", b";a\n>a\nGT\n", 4),
            (b"8: letters that are none, and no room", b"NN\n>a\nNN\n", 0),
            (b"8 before 1", b"A\n>a\n", 4),
        ],
    );
}

pub fn none(out: &mut Out) {
    cases(
        out,
        &[
            (b"1: no letters at the end", b">a\n", 4),
            (b"1: no letters before a header", b">a\r\n>b\nAC\n", 4),
            (b"1: lines of blanks alone", b">a\n \t\r\n\n>b\nAC\n", 4),
            (b"1: no letters and no room", b">a\n\n>b\nAC\n", 0),
        ],
    );
}

pub fn wrong(out: &mut Out) {
    cases(
        out,
        &[
            (b"3: N", b">a\nACNT\n>b\nAC\n", 8),
            (b"3: n", b">a\nACnT\n>b\nAC\n", 8),
            (b"3: a digit", b">a\n1 ACGT\n>b\nAC\n", 8),
            (b"3: * and ;", b">a\nACGT*;\n>b\nAC\n", 8),
            (b"3: a byte 0", b">a\nAC\x00GT\n>b\nAC\n", 8),
            (b"3: a byte 80", b">a\n\x80\n>b\nAC\n", 8),
        ],
    );
}
