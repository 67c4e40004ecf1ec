//! A reader of the first bytes of a file.

ghost use Rattle.std.specs.Prelude.{◌≡◌};
ghost use Rattle.run_inputs.specs.Seen.{front_of};

use mpi_model::{Failed, Read};

/// Gives what the inner reader gives, of so many bytes if there is a limit.
#[derive(Drop)]
pub struct Front<R: Read> {
    /// Gives all bytes.
    pub inner: R,
    /// How many of them are still given.
    pub limit: Option<u64>,
}

impl<R: Read> Front<R> {
    pub(crate) fn new(inner: R, limit: Option<u64>) -> Self
        ensures inner { result.inner ≡ inner }
        ensures limit { result.limit ≡ limit }
    {
        Front { inner, limit }
    }
}

impl<R: Read> Read for Front<R> {
    ghost left = { λ f. front_of f.limit (R.left f.inner) };

    ghost failures = { λ f. R.failures f.inner };

    ghost write_side = { λ f. R.write_side f.inner };

    // (what the inner reader gives beyond the limit is not given)
    #[tactic(auto, using(crate::proofs::Fronts::front_consumes, crate::proofs::Fronts::front_ends, crate::proofs::Fronts::all_consumes, crate::proofs::Fronts::all_ends, crate::proofs::Fronts::front_keeps))]
    fn read(&mut self, buffer: &mut [u8]) -> Result<usize, Failed> {
        let taken = self.inner.read(buffer)?;
        match self.limit {
            None => Ok(taken),
            Some(limit) => {
                let given = limit.min(taken as u64);
                self.limit = Some(limit - given);
                Ok(given as usize)
            }
        }
    }
}
