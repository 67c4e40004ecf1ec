//! What a collective call tells of the arguments on which the members of its group have to agree: the operation of a
//! reduction, and counts with their datatype (MPI 4.0, 6).
//!
//! One table says of each kind of collective call what is compared. An argument is *known* if the parameters of the call
//! tell it: a count is a number from 0 on, a datatype and an operation have the name that their note gives them, if that
//! begins with `MPI_`. So what a program has defined itself is not known, and isn't compared.
//!
//! - [`known`]: what is known of a call; [`table`]: what is compared, by kind
//! - [`name`]: the name of a datatype or an operation; [`count`]: counts; [`told`]: what a call tells, [`shared`] by calls that
//!   tell the same
//!
//! To change something, open:
//!
//! - what is compared of a kind, and which parameters have it: `specs/Table.antt`; [`table`]
#![tactic(auto)]

mod count;
mod known;
mod name;
mod shared;
mod table;
mod told;

pub use known::{Known, Told};
pub use shared::{LastTold, SharedTold};
pub use table::{Compared, Line, Parameters, Rule, compared_of, is_compared, lines_of};
pub use told::told_of;
