// The parts that four calls hand back. An exported function returns no slice, so each is written to `part`, as the slice
// that it is: a host finds its address and its length there.
ghost use Rattle.std.specs.Prelude.{◌≡◌, cond, ◌+◌, length};
ghost use Rattle.ring.specs.Answers.{key_part, in_second};
ghost use Rattle.sheet.specs.Reader.{entry_of, part_of};
ghost use Rattle.fasta.specs.Parts.{header_of, header_at, rest_of, rest_at};

#[unsafe(no_mangle)]
pub extern "C" fn probe_key_part<'a>(
    kind: u8,
    ring: &[u8],
    first: &'a mut [u8],
    second: &'a mut [u8],
    part: &mut &'a [u8],
)
    ensures part_after { part.new.now ≡ key_part kind ring.now (length first.old) (length second.old) }
    ensures ptr_after { part.new.ref_ptr ≡ cond (in_second kind ring.now (length first.old) (length second.old)) second.entry.ref_ptr first.entry.ref_ptr }
{
    let key = ring::key(ring, kind, first, second);
    *part = key;
}

#[unsafe(no_mangle)]
pub extern "C" fn probe_sheet_letters_part<'a>(bytes: &'a [u8], part: &mut &'a [u8])
    ensures part_after { part.new.now ≡ part_of bytes.now }
    ensures ptr_after { (part.new.ref_ptr.0 ≡ bytes.entry.ref_ptr.0) × (part.new.ref_ptr.1 ≡ bytes.entry.ref_ptr.1 + (entry_of bytes.now).before) }
{
    *part = sheet::letters(bytes);
}

#[unsafe(no_mangle)]
pub extern "C" fn probe_fasta_header_part<'a>(text: &'a [u8], part: &mut &'a [u8])
    ensures part_after { part.new.now ≡ header_of text.now }
    ensures ptr_after { (part.new.ref_ptr.0 ≡ text.entry.ref_ptr.0) × (part.new.ref_ptr.1 ≡ text.entry.ref_ptr.1 + header_at text.now) }
{
    *part = fasta::header(text);
}

#[unsafe(no_mangle)]
pub extern "C" fn probe_fasta_rest_part<'a>(text: &'a [u8], part: &mut &'a [u8])
    ensures part_after { part.new.now ≡ rest_of text.now }
    ensures ptr_after { (part.new.ref_ptr.0 ≡ text.entry.ref_ptr.0) × (part.new.ref_ptr.1 ≡ text.entry.ref_ptr.1 + rest_at text.now) }
{
    *part = fasta::rest(text);
}
