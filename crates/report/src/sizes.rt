// The longest ring that is printed, and the sizes that go with it.

// The most letters of a ring that is printed.
pub const LONGEST: usize = 8192;

// The bytes that are read: one more than the longest ring and its line feed have.
pub const READ: usize = LONGEST + 2;

// Room enough for every report.
pub const ROOM: usize = 160000;
