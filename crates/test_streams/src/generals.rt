// A frame of types 41 and 42: its record, a list behind a head or null, is summed and made into a frame again.
use crate::again::{Again, refused};
use crate::sum::Sum;
use frame::Frame;
use record_generals::{General, GeneralHead, GeneralNullRead, GeneralRead, HeadRead};
use record_stages::Count;

// A sum, with the fields of a satellite.
fn with_general(sum: Sum, e: General) -> Sum {
    let named = sum.byte(e.satellite).byte(e.udre).byte(e.iod);
    named
        .number(record_fields::code16(e.prc))
        .number(u32::from(e.delay))
}

// A satellite of zeros, for the places past the count.
fn zeros() -> General {
    General {
        satellite: 0,
        udre: 0,
        iod: 0,
        prc: 0,
        delay: 0,
    }
}

// The first `count` satellites, summed and made into a frame with the head; the first that can't be read ends it, summed up to there.
fn satellites(frame: Frame, head: GeneralHead, count: usize, before: Sum) -> Again {
    let mut entries = [zeros(); 22];
    let mut sum = before;
    for (i, place) in entries.iter_mut().take(count).enumerate() {
        match record_generals::general_at(frame, i) {
            GeneralRead::Entry(entry) => {
                *place = entry;
                sum = with_general(sum, entry);
            }
            GeneralRead::Refused(number) => return refused(sum, number),
        }
    }
    let made = record_generals::make_generals(frame.header, head, entries, count);
    Again { sum, made }
}

// A sum, with the five numbers of a head.
fn with_head(sum: Sum, head: GeneralHead) -> Sum {
    let signal = sum.byte(head.system).byte(head.signal);
    signal
        .byte(head.ephemeris)
        .byte(head.period)
        .byte(head.ionosphere)
}

// The head and the satellites, summed and made into a frame.
fn list(frame: Frame, sum: Sum) -> Again {
    match record_generals::count_generals(frame) {
        Count::Of(count) => match record_generals::read_head(frame) {
            HeadRead::Head(head) => satellites(frame, head, count, with_head(sum, head)),
            HeadRead::Refused(number) => refused(sum, number),
        },
        Count::Refused(number) => refused(sum, number),
    }
}

// The number of words and the system of a null frame, summed and made into a frame.
fn null(frame: Frame, sum: Sum) -> Again {
    match record_generals::read_general_null(frame) {
        GeneralNullRead::Null(n, system) => Again {
            sum: sum.number((n % 32) as u32).byte(system),
            made: record_generals::make_general_null(frame.header, n, system),
        },
        GeneralNullRead::Refused(number) => refused(sum, number),
    }
}

// Null where the type is 42 and N is 1, else a list.
pub(crate) fn generals_again(frame: Frame, sum: Sum) -> Again {
    match (frame.header.kind, frame.n) {
        (42, 1) => null(frame, sum),
        _ => list(frame, sum),
    }
}
