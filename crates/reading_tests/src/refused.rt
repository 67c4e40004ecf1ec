//! A text that is refused memory, which ends for good. `tests/run/run_refusals` refuses each request of this test in
//! turn. That a refused take or join leaves what was known, and gives back what was taken, is said by their contracts.

use crate::failing::TEXT;
use dumpi_text::{TextFault, Texts};
use mpi_model::Device;
use std::alloc::Global;
use std::test::Fail;

/// Whether a text gives its one call and then no more; or is refused memory, and from then on answers that it has
/// ended.
fn ends_for_good(alloc: Global) -> Result<bool, Fail> {
    let mut texts = match Texts::new(alloc, Device::new(TEXT)) {
        Ok(texts) => texts,
        Err(_) => Texts::new(alloc, Device::new(TEXT))?,
    };
    let answers = (texts.next_raw(), texts.next_raw(), texts.next_raw());
    Ok(match answers {
        (Ok(Some(_)), Ok(None), Ok(None)) => true,
        (Err(TextFault::Memory), Err(TextFault::Ended), Err(TextFault::Ended)) => true,
        (Ok(Some(_)), Err(TextFault::Memory), Err(TextFault::Ended)) => true,
        _ => false,
    })
}

#[test]
fn a_refused_text_ends_for_good(rt: HostRuntime) -> Result<(), Fail> {
    assert!(rt; ends_for_good(rt.alloc())?);
    Ok(())
}
