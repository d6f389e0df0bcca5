// The number 4, in its place behind 8 and 3.
use super::show::cases;
use shown::Out;

pub fn short(out: &mut Out) {
    cases(
        out,
        &[
            (b"0: a room of n bytes", b">a\nAC GT\n>b\nAC\n", 4),
            (b"0: a room of more", b">a\nAC GT\n>b\nAC\n", 6),
            (b"4: a room of n - 1 bytes", b">a\nAC GT\n>b\nAC\n", 3),
            (b"4: a room of 0 bytes", b">a\nAC GT\n>b\nAC\n", 0),
            (
                b"4: room for the second record alone",
                b">a\nACGT\n>b\nAC\n",
                2,
            ),
        ],
    );
}

pub fn order(out: &mut Out) {
    cases(
        out,
        &[
            (b"3 before 4", b">a\nACN\n>b\nAC\n", 2),
            (b"3 before 4, beyond the room", b">a\nACGTN\n>b\nAC\n", 1),
            (b"8 before 4", b" A\n>a\nAC\n", 0),
        ],
    );
}
