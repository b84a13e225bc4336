//! The faults that a desk makes.
ghost use Rattle.std.specs.Prelude.{◌≡◌, Ok, Err, MatchResult};
ghost use Rattle.raster.specs.Calls.{unless};
ghost use Rattle.raster.specs.declared.fault.Fault.{Fault};
ghost use Rattle.paper.specs.Desk.{because, unnamed, no_client};
ghost use Rattle.desk.specs.Carried.{own_fault};

use paper::DeskFault;
use raster::{Fault, Refusal};

/// A fault of the desk's own, of a call that names no client.
pub(crate) fn unnamed(refusal: Refusal) -> DeskFault
    ensures { result ≡ unnamed refusal }
{
    DeskFault {
        refusal,
        client: None,
        bitmap: None,
    }
}

/// A fault of the desk's own, of a call that names a client.
pub(crate) fn because(refusal: Refusal, client: u8) -> DeskFault
    ensures { result ≡ because refusal client }
{
    DeskFault {
        client: Some(client),
        ..unnamed(refusal)
    }
}

/// What the client's own bitmap answers, its fault carried whole.
pub(crate) fn carried<A: Copy>(client: u8, answer: Result<A, Fault>) -> Result<A, DeskFault>
    ensures { MatchResult result (λ a. answer ≡ Ok a) (λ d. (f : Fault) × (answer ≡ Err f) × (d ≡ own_fault client f)) }
{
    answer.map_err(|fault| DeskFault {
        refusal: fault.refusal,
        client: Some(client),
        bitmap: Some(fault),
    })
}

/// Refuses a client above 7.
pub(crate) fn check_client(c: u8) -> Result<(), DeskFault>
    ensures { result ≡ unless (no_client c) tt }
{
    if c > 7 {
        return Err(because(Refusal::ClientAboveSeven, c));
    }
    Ok(())
}
