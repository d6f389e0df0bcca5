// What the calls answer that are done.
use ring::{Kind, Marks};

// A sheet read: the key's marks, its kind, and how many bytes stand before it.
#[derive(Clone, Copy, Debug, PartialEq, Eq)]
pub struct Sheet {
    pub marks: Marks,
    pub kind: Kind,
    pub before: usize,
}
