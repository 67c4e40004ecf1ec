//! One of the communicators that a making makes.

ghost use Rattle.std.specs.Prelude.{◌≡◌};
ghost use Rattle.comm_makings.specs.Each.{list_in};

use std::marker::Model;

/// A communicator that is made.
#[derive(Drop)]
pub(crate) struct Part {
    /// The members' places in the parent, in the order of their new ranks.
    pub places: Vec<u32>,
    /// The sizes of its dimensions, where it is a grid and they are known.
    pub dims: Option<Vec<u32>>,
}

impl Model for Part {
    ghost use Rattle.comm_makings.specs.Each.{list_in};
    ghost use Rattle.comm_makings.specs.Selection.{Selection};

    ghost Value = { Selection };

    ghost view = { λ p. record { places = p.places.items; dims = list_in p.dims } };
}

impl Part {
    /// A communicator with the members at these places of the parent, and the sizes of its dimensions where they are
    /// known.
    pub(crate) fn new(places: Vec<u32>, dims: Option<Vec<u32>>) -> Part
        ensures { result ≡ record { places = places.items; dims = list_in dims } }
    {
        Part { places, dims }
    }
}
