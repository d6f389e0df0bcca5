// The public calls as plain C functions, for tests and timing. Each gives back the call's number and writes the answer's
// other fields to `values`, in their order; `values` with fewer entries than that is left alone. `probe_strands_of` gives the
// strands and `probe_report` always 0; `probe_key`, `probe_sheet_letters`, `probe_fasta_header` and `probe_fasta_rest` tell where the
// part stands and its length. Those of `parts` hand back the part itself, by its address and length.
#![tactic(auto)]

mod answers;
mod deposits;
mod keys;
mod parts;
mod records;
mod reports;
mod rings;
mod sheets;
mod tell;
