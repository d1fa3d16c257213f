// A frame of types 18 and 19: its record is summed as an edition reads it, and made into a frame again.
use crate::again::{Again, refused};
use crate::sum::Sum;
use frame::Frame;
use record_observations::{
    Edition, Epoch, EpochRead, Mark, Measured, Observation, ObservationRead,
};
use record_stages::Count;

// A sum, with what the first bit says: which mark it is, and its bit.
fn with_mark(sum: Sum, mark: Mark) -> Sum {
    match mark {
        Mark::Half(bit) => sum.byte(0).byte(bit),
        Mark::Reserved(bit) => sum.byte(1).byte(bit),
        Mark::More(bit) => sum.byte(2).byte(bit),
    }
}

// A sum, with what was measured.
fn with_measured(sum: Sum, measured: Measured) -> Sum {
    match measured {
        Measured::Phase(losses, phase) => sum.byte(losses).number(phase.cast_unsigned()),
        Measured::Range(multipath, range) => sum.byte(multipath).number(range),
    }
}

// A sum, with the fields of an observation.
fn with_observation(sum: Sum, e: Observation) -> Sum {
    let named = with_mark(sum, e.mark)
        .byte(e.code)
        .byte(e.system)
        .byte(e.satellite);
    with_measured(named.byte(e.quality), e.measured)
}

// An observation of zeros, for the places past the count.
fn zeros() -> Observation {
    Observation {
        mark: Mark::More(0),
        code: 0,
        system: 0,
        satellite: 0,
        quality: 0,
        measured: Measured::Range(0, 0),
    }
}

// The first `count` satellites in an edition, summed and made into a frame with the head.
fn satellites(edition: Edition, frame: Frame, epoch: Epoch, count: usize, before: Sum) -> Again {
    let mut entries = [zeros(); 15];
    let mut sum = before;
    for (i, place) in entries.iter_mut().take(count).enumerate() {
        match record_observations::observation_at(edition, frame, i) {
            ObservationRead::Entry(entry) => {
                *place = entry;
                sum = with_observation(sum, entry);
            }
            ObservationRead::Refused(number) => return refused(sum, number),
        }
    }
    let made = record_observations::make_observations(edition, frame.header, epoch, entries, count);
    Again { sum, made }
}

// A sum, with the three numbers of a head.
fn with_epoch(sum: Sum, epoch: Epoch) -> Sum {
    sum.byte(epoch.frequency)
        .byte(epoch.smoothing)
        .number(epoch.time)
}

// The edition by which a frame is read here: GOST for an even sequence, BD for an odd one.
fn edition_of(sequence: u8) -> Edition {
    if sequence % 2 == 0 {
        return Edition::Gost;
    }
    Edition::Bd
}

// The record in one edition.
fn record(frame: Frame, epoch: Epoch, count: usize, sum: Sum) -> Again {
    let edition = edition_of(frame.header.sequence);
    satellites(edition, frame, epoch, count, with_epoch(sum, epoch))
}

// The head and the satellites, summed and made into a frame.
pub(crate) fn observed(frame: Frame, sum: Sum) -> Again {
    match record_observations::count_observations(frame) {
        Count::Of(count) => match record_observations::read_epoch(frame) {
            EpochRead::At(epoch) => record(frame, epoch, count, sum),
            EpochRead::Refused(number) => refused(sum, number),
        },
        Count::Refused(number) => refused(sum, number),
    }
}
