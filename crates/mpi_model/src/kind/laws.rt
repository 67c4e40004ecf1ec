//! What holds of each kind. The law is the contract of a call that does nothing, so that the check
//! proves it.

ghost use Rattle.mpi_model.specs.AllKinds.{HaveNumbers, TestsEach};

/// A test that all kinds of the table pass, each kind passes; and each kind has its number.
pub fn each_kind()
    ensures tests { TestsEach }
    ensures numbers { HaveNumbers }
{}
