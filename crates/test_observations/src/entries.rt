// Observations as the vectors give them: a first bit and seven numbers.
use record_observations::{Edition, Mark, Measured, Observation};

// The first bit of type 18 in an edition.
pub(crate) fn phase_mark(edition: Edition, bit: u8) -> Mark {
    match edition {
        Edition::Gost => Mark::Half(bit),
        Edition::Bd => Mark::More(bit),
    }
}

// The first bit of type 19 in an edition.
pub(crate) fn range_mark(edition: Edition, bit: u8) -> Mark {
    match edition {
        Edition::Gost => Mark::Reserved(bit),
        Edition::Bd => Mark::More(bit),
    }
}

// An observation of type 18 by its numbers.
pub(crate) fn phase_of(
    mark: Mark,
    code: u8,
    system: u8,
    satellite: u8,
    quality: u8,
    losses: u8,
    phase: i32,
) -> Observation {
    Observation {
        mark,
        code,
        system,
        satellite,
        quality,
        measured: Measured::Phase(losses, phase),
    }
}

// An observation of type 19 by its numbers.
pub(crate) fn range_of(
    mark: Mark,
    code: u8,
    system: u8,
    satellite: u8,
    quality: u8,
    multipath: u8,
    range: u32,
) -> Observation {
    Observation {
        mark,
        code,
        system,
        satellite,
        quality,
        measured: Measured::Range(multipath, range),
    }
}
