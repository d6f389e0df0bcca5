// The mark begins a header at a line's front alone; and places count the letters kept.
use super::show::cases;
use shown::Out;

pub fn headers(out: &mut Out) {
    cases(
        out,
        &[
            (b"A mark alone as the text", b">", 4),
            (b"A mark alone as the next header", b">a\nAC\n>\nGT\n", 4),
            (b"Two headers, one behind another", b">a\n>b\nAC\n", 4),
        ],
    );
}

pub fn within(out: &mut Out) {
    cases(
        out,
        &[
            (b"A mark within a letter line", b">a\nAC>GT\n", 8),
            (b"A mark at a letter line's end", b">a\nACGT>\n>b\nGT\n", 8),
        ],
    );
}

pub fn blanks(out: &mut Out) {
    cases(
        out,
        &[
            (b"A space before a mark", b">a\nAC\n >b\nGT\n", 8),
            (b"A tab before a mark", b">a\nAC\n\t>\n>c\nGT\n", 8),
            (b"A space before the first mark", b" >a\nAC\n", 8),
            (b"A tab before the first mark", b"\n\t>a\nAC\n>b\nAC\n", 8),
        ],
    );
}

pub fn places(out: &mut Out) {
    cases(
        out,
        &[
            (
                b"The place counts the letters kept",
                b">a\nA C\r\n\n\tg N\n",
                8,
            ),
            (b"The place is the first", b">a\nAC\nGTNNACN\n", 8),
            (b"N in the next record alone", b">a\nAC\n>b\nN\n", 8),
            (b"Place 0", b"\n\n>abc\n\n N\n", 8),
        ],
    );
}
