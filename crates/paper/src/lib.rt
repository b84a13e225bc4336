//! The desk on paper: definitions that the desk's contracts cite, and laws of them.
#![tactic(auto)]

ghost use Rattle.std.specs.Prelude.{◌≡◌};
ghost use Rattle.paper.specs.Apart.{LayersKeepApart};
ghost use Rattle.paper.specs.Desk.{client_number};
ghost use Rattle.paper.specs.Laws.{DeskLaws};

use raster::{Fault, Refusal};

/// What a refused call of a desk answers: why, the client that the call named, if it named one,
/// and what the client's own bitmap answered, where that is the reason.
#[derive(Clone, Copy, PartialEq, Eq, Debug)]
pub struct DeskFault {
    pub refusal: Refusal,
    pub client: Option<u8>,
    pub bitmap: Option<Fault>,
}

impl DeskFault {
    /// The client's number as a fault reports it: 255 if the call named none.
    pub fn client_number(self) -> u8
        ensures { result ≡ client_number self }
    {
        self.client.unwrap_or(255)
    }
}

/// Layers keep apart, over every two runs on desks and in houses: specs/Apart.antt says how.
pub fn layers_keep_apart()
    ensures { LayersKeepApart }
{}

/// The laws of a desk: specs/Laws.antt states them.
pub fn desk_laws()
    ensures { DeskLaws }
{}
