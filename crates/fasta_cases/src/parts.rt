// The parts of a text: the header, the letters, and the text that remains.
use super::show::cases;
use shown::Out;

pub fn records(out: &mut Out) {
    cases(
        out,
        &[
            (b"A plain record", b">one\nACGT\n", 4),
            (b"Two records", b">one\nACGT\n>two\nGATTACA\n", 8),
        ],
    );
}

pub fn headers(out: &mut Out) {
    cases(
        out,
        &[
            (b"A header with its blanks", b"> one \t two \nACGT\n", 4),
            (b"A header of small letters", b">acgt\nACGT\n", 4),
            (b"A header of 0 bytes", b">\nACGT\n", 4),
            (b"Marks in a header", b">>a>b>\nACGT\n", 4),
            (
                b"A header of the bytes 00, 80 and ff",
                b">\x00\x80\xff\nACGT\n",
                4,
            ),
        ],
    );
}
