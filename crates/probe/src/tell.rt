// What a host is told of an answer: its number, and its other fields in its values.
ghost use Rattle.std.specs.Prelude.{◌≡◌, ◌<◌, ℕ, List};
ghost use Rattle.probe.specs.Told.{told};

// An answer in 01's numbers: the number, and the other fields in their order.
pub trait Answer<const N: usize> {
    ghost number_told: { Self → ℕ };

    ghost fields_told: { Self → List ℕ };

    fn number(&self) -> u8
        ensures { result ≡ number_told self.now };

    fn fields(&self) -> [u64; N]
        ensures { result ≡ fields_told self.now };
}

// Writes the fields to the front of `values`; too few values are left alone.
#[tactic(auto, unfolding(crate::specs::Told::told))]
pub fn put(values: &mut [u64], fields: &[u64])
    ensures { values.new ≡ told fields.now values.old }
{
    if fields.len() <= values.len() {
        values[..fields.len()].copy_from_slice(fields);
    }
}

// Tells an answer's fields, and gives its number back; `N` is bounded, so that memory holds the fields.
pub fn tell<const N: usize, A: Answer<N>>(values: &mut [u64], answer: &A) -> u8
    requires { N < 64 }
    ensures value { result ≡ A.number_told answer.now }
    ensures values_after { values.new ≡ told (A.fields_told answer.now) values.old }
{
    put(values, &answer.fields());
    answer.number()
}
