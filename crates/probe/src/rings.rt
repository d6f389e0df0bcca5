// A ring judged, its factors, its prefix tables, its start by duels, and its repeat.
ghost use Rattle.std.specs.Prelude.{◌≡◌, length};
ghost use Rattle.ring.specs.Answers.{checked_of, factored_of, factored_table, filled_of, suffixes_table, starts_table, fought_of, repeated_of};
ghost use Rattle.probe.specs.Told.{told, checked_fields, factored_fields, fought_fields, repeated_fields};

use super::tell::tell;
use ring::{Checked, Factored, Fought, Repeated};

#[unsafe(no_mangle)]
pub extern "C" fn probe_check(kind: u8, ring: &[u8], values: &mut [u64]) -> u8
    ensures value { result ≡ (checked_of kind ring.now).number }
    ensures values_after { values.new ≡ told (checked_fields (checked_of kind ring.now)) values.old }
{
    tell(values, &Checked::from(ring::check(ring, kind)))
}

#[unsafe(no_mangle)]
pub extern "C" fn probe_factors(kind: u8, ring: &[u8], table: &mut [u16], values: &mut [u64]) -> u8
    ensures value { result ≡ (factored_of kind ring.now (length table.old)).number }
    ensures values_after { values.new ≡ told (factored_fields (factored_of kind ring.now (length table.old))) values.old }
    ensures table_after { table.new ≡ factored_table kind ring.now table.old }
{
    tell(values, &Factored::from(ring::factors(ring, kind, table)))
}

#[unsafe(no_mangle)]
pub extern "C" fn probe_suffixes(kind: u8, ring: &[u8], table: &mut [u16], values: &mut [u64]) -> u8
    ensures value { result ≡ (filled_of kind ring.now (length table.old)).number }
    ensures values_after { values.new ≡ told (checked_fields (filled_of kind ring.now (length table.old))) values.old }
    ensures table_after { table.new ≡ suffixes_table kind ring.now table.old }
{
    tell(values, &Checked::from(ring::suffixes(ring, kind, table)))
}

#[unsafe(no_mangle)]
pub extern "C" fn probe_starts(kind: u8, ring: &[u8], table: &mut [u16], values: &mut [u64]) -> u8
    ensures value { result ≡ (filled_of kind ring.now (length table.old)).number }
    ensures values_after { values.new ≡ told (checked_fields (filled_of kind ring.now (length table.old))) values.old }
    ensures table_after { table.new ≡ starts_table kind ring.now table.old }
{
    tell(values, &Checked::from(ring::starts(ring, kind, table)))
}

#[unsafe(no_mangle)]
pub extern "C" fn probe_duel(kind: u8, ring: &[u8], values: &mut [u64]) -> u8
    ensures value { result ≡ (fought_of kind ring.now).number }
    ensures values_after { values.new ≡ told (fought_fields (fought_of kind ring.now)) values.old }
{
    tell(values, &Fought::from(ring::duel(ring, kind)))
}

#[unsafe(no_mangle)]
pub extern "C" fn probe_repeat(kind: u8, ring: &[u8], values: &mut [u64]) -> u8
    ensures value { result ≡ (repeated_of kind ring.now).number }
    ensures values_after { values.new ≡ told (repeated_fields (repeated_of kind ring.now)) values.old }
{
    tell(values, &Repeated::from(ring::repeat(ring, kind)))
}
