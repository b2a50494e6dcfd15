//! The kinds that every house has.
use super::sets::{Both, Only, join};
use super::single::PlaceEvidence;
use super::traps::TrapEvidence;
use super::weights::WeightEvidence;

/// W, T and P.
pub type BaseKinds = Both<Only<WeightEvidence>, Both<Only<TrapEvidence>, Only<PlaceEvidence>>>;

/// The set of W, T and P.
pub fn base_kinds() -> BaseKinds {
    let places = Only {
        kind: PlaceEvidence,
    };
    let traps = Only { kind: TrapEvidence };
    let weights = Only {
        kind: WeightEvidence,
    };
    join(weights, join(traps, places))
}
