// The base that a byte of a letter line is kept as, by a table of every byte.
ghost use Rattle.std.specs.Prelude.{◌≡◌, ◌<◌, MatchOption};
ghost use Rattle.fasta.specs.Bases.{base_of, base_table};

// The table, laid out once before a scan and lent to it. As a static it is slower: its address is formed anew for every byte.
#[derive(Clone, Copy)]
pub struct Bases {
    table: [u8; 256],
    ghost laid: { table ≡ base_table },
}

impl Bases {
    // A, C, G, T for themselves and for a, c, g, t, and 0 for every other byte.
    pub fn new() -> Bases {
        let mut table = [0; 256];
        table[b'A' as usize] = b'A';
        table[b'C' as usize] = b'C';
        table[b'G' as usize] = b'G';
        table[b'T' as usize] = b'T';
        table[b'a' as usize] = b'A';
        table[b'c' as usize] = b'C';
        table[b'g' as usize] = b'G';
        table[b't' as usize] = b'T';
        Bases { table }
    }

    // The base of a byte, looked up in the table; none where it has none.
    pub fn look_up(&self, b: u8) -> Option<u8>
        ensures { MatchOption result (base_of b ≡ 0) (λ base. (base ≡ base_of b) × (0 < base)) }
    {
        match self.table[b as usize] {
            0 => None,
            base => Some(base),
        }
    }
}
