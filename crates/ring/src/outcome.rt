// What the calls answer that are done.
use super::strand::Strand;

// The factor route: how many factors, and the start.
#[derive(Clone, Copy, Debug, PartialEq, Eq)]
pub struct Factors {
    pub count: usize,
    pub start: usize,
}

// The duel route: the start, and the pairs read.
#[derive(Clone, Copy, Debug, PartialEq, Eq)]
pub struct Duels {
    pub start: usize,
    pub pairs: usize,
}

// The key's marks: how many letters it has, its start and its strand.
#[derive(Clone, Copy, Debug, PartialEq, Eq)]
pub struct Marks {
    pub n: usize,
    pub start: usize,
    pub strand: Strand,
}
