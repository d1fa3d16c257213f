// A frame's record: its fields are summed in the order sent, and made into a frame again.
use crate::generals::generals_again;
use crate::observed::observed;
use crate::sum::Sum;
use frame::{Frame, Layout};
use record_corrections::{Correction, CorrectionRead, Issue};
use record_healths::{Condition, HealthRead, SatelliteHealth};
use record_nulls::NullRead;
use record_positions::{Position, PositionRead};
use record_stages::{Count, Made, Making};

// What a frame's record gave: the sum with its fields, and the frame made of them.
#[derive(Clone, Copy)]
pub(crate) struct Again {
    pub(crate) sum: Sum,
    pub(crate) made: Made,
}

// The record cannot be read: the refusal's number is summed.
pub(crate) fn refused(sum: Sum, number: u8) -> Again {
    let made = Made {
        answer: Making::Refused(number),
        frame: frame::no_frame(),
    };
    Again {
        sum: sum.byte(number),
        made,
    }
}

// A sum, with what the last eight bits of a correction say.
fn with_issue(sum: Sum, issue: Issue) -> Sum {
    match issue {
        Issue::Iod(iod) => sum.byte(iod),
        Issue::Age(change, tb) => sum.byte(change).byte(tb),
    }
}

// A sum, with the fields of a correction.
fn with_correction(sum: Sum, e: Correction) -> Sum {
    let named = sum.byte(e.scale).byte(e.udre).byte(e.satellite);
    let values = named
        .number(record_fields::code16(e.prc))
        .number(record_fields::code8(e.rrc));
    with_issue(values, e.issue)
}

// A sum, with what the three health bits say.
fn with_condition(sum: Sum, health: Condition) -> Sum {
    match health {
        Condition::Code(code) => sum.byte(code),
        Condition::Data(data, reserved) => sum.byte(data).byte(reserved),
    }
}

// A sum, with the fields of a satellite's health.
fn with_health(sum: Sum, e: SatelliteHealth) -> Sum {
    let link = sum.byte(e.reserved).byte(e.satellite).byte(e.link);
    let enable = with_condition(link, e.health).byte(e.cn0).byte(e.enable);
    enable
        .byte(e.new_data)
        .byte(e.loss)
        .byte(e.time)
        .byte(e.spare)
}

// A sum, with the three numbers of a position.
fn with_position(sum: Sum, place: Position) -> Sum {
    sum.number(place.x.cast_unsigned())
        .number(place.y.cast_unsigned())
        .number(place.z.cast_unsigned())
}

// A correction of zeros, for the places past the count.
fn zeros() -> Correction {
    Correction {
        scale: 0,
        udre: 0,
        satellite: 0,
        prc: 0,
        rrc: 0,
        issue: Issue::Iod(0),
    }
}

// The first `count` entries, summed and made into a frame; the first that can't be read ends it, summed up to there.
fn corrections(frame: Frame, count: usize, before: Sum) -> Again {
    let mut entries = [zeros(); 18];
    let mut sum = before;
    for (i, place) in entries.iter_mut().take(count).enumerate() {
        match record_corrections::correction_at(frame, i) {
            CorrectionRead::Entry(entry) => {
                *place = entry;
                sum = with_correction(sum, entry);
            }
            CorrectionRead::Refused(number) => return refused(sum, number),
        }
    }
    let made = record_corrections::make_corrections(frame.header, entries, count);
    Again { sum, made }
}

// Entry number `index` of a frame, or zeros.
fn health_or_zeros(frame: Frame, index: usize) -> SatelliteHealth {
    match record_healths::health_at(frame, index) {
        HealthRead::Entry(entry) => entry,
        HealthRead::Refused(_) => SatelliteHealth {
            reserved: 0,
            satellite: 0,
            link: 0,
            health: Condition::Code(0),
            cn0: 0,
            enable: 0,
            new_data: 0,
            loss: 0,
            time: 0,
            spare: 0,
        },
    }
}

// The first `count` entries, summed and made into a frame.
fn healths(frame: Frame, count: usize, before: Sum) -> Again {
    let entries: [SatelliteHealth; 31] = std::array::from_fn(|i| health_or_zeros(frame, i));
    let mut sum = before;
    for entry in entries.iter().take(count) {
        sum = with_health(sum, *entry);
    }
    let made = record_healths::make_healths(frame.header, entries, count);
    Again { sum, made }
}

// The text, summed and made into a frame.
fn text(frame: Frame, sum: Sum) -> Again {
    let mut buffer = [0u8; 90];
    match record_texts::read_text(frame, &mut buffer) {
        Count::Of(count) => match buffer.get(..count) {
            Some(text) => Again {
                sum: sum.bytes(text),
                made: record_texts::make_text(frame.header, text),
            },
            // never so: no frame has more characters
            None => refused(sum, 13),
        },
        Count::Refused(number) => refused(sum, number),
    }
}

// The position, summed and made into a frame.
fn position(frame: Frame, sum: Sum) -> Again {
    match record_positions::read_position(frame) {
        PositionRead::At(place) => Again {
            sum: with_position(sum, place),
            made: record_positions::make_position(frame.header, place),
        },
        PositionRead::Refused(number) => refused(sum, number),
    }
}

// The number of words of a null frame, summed and made into a frame.
fn null(frame: Frame, sum: Sum) -> Again {
    match record_nulls::read_null(frame) {
        NullRead::Null(n) => Again {
            sum: sum.number((n % 32) as u32),
            made: record_nulls::make_null(frame.header, n),
        },
        NullRead::Refused(number) => refused(sum, number),
    }
}

// The corrections, summed and made into a frame.
fn list(frame: Frame, sum: Sum) -> Again {
    match record_corrections::count_corrections(frame) {
        Count::Of(count) => corrections(frame, count, sum),
        Count::Refused(number) => refused(sum, number),
    }
}

// Null where N is 0 or 1, else corrections.
fn list_or_null(frame: Frame, sum: Sum) -> Again {
    if frame.n < 2 {
        return null(frame, sum);
    }
    list(frame, sum)
}

// What a frame's record gives; a plain frame has no record.
pub(crate) fn made_again(frame: Frame, sum: Sum) -> Again {
    match frame::layout_of(frame.header.kind) {
        Layout::Correction => list(frame, sum),
        Layout::CorrectionOrNull => list_or_null(frame, sum),
        Layout::Health => match record_healths::count_healths(frame) {
            Count::Of(count) => healths(frame, count, sum),
            Count::Refused(number) => refused(sum, number),
        },
        Layout::Position => position(frame, sum),
        Layout::Null => null(frame, sum),
        Layout::Text => text(frame, sum),
        Layout::Observation => observed(frame, sum),
        Layout::General => generals_again(frame, sum),
        Layout::Plain => refused(sum, 6),
    }
}
