// Raw observations of types 18 and 19, by edition: counted, read and made.
ghost use Rattle.std.specs.Prelude.{◌≡◌, length};
ghost use Rattle.record_observations.specs.Observations.{make_observations, says_observation_read};
ghost use Rattle.rtcm2_rows.specs.Rows.{row_size, count_of, entries_from};
ghost use Rattle.rtcm2_rows.specs.Observations.{row};
ghost use Rattle.rtcm2.specs.Answer.{number_of, left};
ghost use Rattle.rtcm2.specs.Header.{headed};
ghost use Rattle.rtcm2.specs.Frames.{frame_said, kept_to, held_to, size_to};
ghost use Rattle.rtcm2.specs.Rows.{row_to, row_held};
ghost use Rattle.rtcm2.specs.Observations.{edition_by, count_said, epoch_said, frequency_said, smoothing_said, time_said, read_said, entry_said, made_said};

use crate::header::Headed;
use frame::{Frame, Header, Layout};
use journal::Found;
use record_observations::{Edition, Epoch, EpochRead, ObservationRead};
use record_stages::Made;

// The edition of a number, or the refusal's number.
#[derive(Clone, Copy)]
enum Named {
    Edition(Edition),
    Refused(u8),
}

// The edition of a number: 0 GOST, 1 BD; another one is 5.
fn edition_of(edition: u8) -> Named
    ensures { result ≡ edition_by edition }
{
    if edition > 1 {
        return Named::Refused(5);
    }
    if edition == 0 {
        return Named::Edition(Edition::Gost);
    }
    Named::Edition(Edition::Bd)
}

// How many satellites a frame has. Order 14, 15, 16, 15, 16, then 6, 7, 8.
pub fn rtcm2_count_observations(frame: &[u8], count: &mut usize) -> u8
    ensures value { result ≡ number_of (count_said (frame_said frame.now)) }
    ensures count_after { count.new ≡ left (count_said (frame_said frame.now)) (λ k. k) count.old }
{
    crate::rows::count_at(Layout::Observation, 24, 48, frame, count)
}

// The head of a frame: frequency, smoothing, time. Order 14, 15, 16, 15, 16, then 6, 7, 8, 10.
pub fn rtcm2_read_epoch(frame: &[u8], frequency: &mut u8, smoothing: &mut u8, time: &mut u32) -> u8
    ensures value { result ≡ number_of (epoch_said (frame_said frame.now)) }
    ensures frequency_after { frequency.new ≡ left (epoch_said (frame_said frame.now)) frequency_said frequency.old }
    ensures smoothing_after { smoothing.new ≡ left (epoch_said (frame_said frame.now)) smoothing_said smoothing.old }
    ensures time_after { time.new ≡ left (epoch_said (frame_said frame.now)) time_said time.old }
{
    let recalled = journal::recall(frame);
    let answer = recalled.answer;
    match answer {
        Found::Record(_) => match record_observations::read_epoch(recalled.frame) {
            EpochRead::At(epoch) => {
                *frequency = epoch.frequency;
                *smoothing = epoch.smoothing;
                *time = epoch.time;
                0
            }
            EpochRead::Refused(number) => number,
        },
        Found::Refused(number) => number,
    }
}

// An observation as a row at the start of the bytes: the refusal that there was, or 13.
fn entry_to(read: ObservationRead, observation: &mut [u8]) -> u8
    ensures value { result ≡ number_of (row_to row (says_observation_read read) observation.old) }
    ensures observation_after { observation.new ≡ row_held row (says_observation_read read) observation.old }
{
    match read {
        ObservationRead::Entry(entry) => {
            crate::rows::number_of(rtcm2_rows::observation::put_observation(entry, observation))
        }
        ObservationRead::Refused(number) => number,
    }
}

// Satellite number `index` of a frame in an edition, as a row: 5 for the edition, then 6, 7, 8, 9, 10, 13.
fn read_in(edition: u8, frame: Frame, index: usize, observation: &mut [u8]) -> u8
    ensures value { result ≡ number_of (row_to row (read_said edition frame index) observation.old) }
    ensures observation_after { observation.new ≡ row_held row (read_said edition frame index) observation.old }
{
    match edition_of(edition) {
        Named::Edition(named) => {
            let read = record_observations::observation_at(named, frame, index);
            entry_to(read, observation)
        }
        Named::Refused(number) => number,
    }
}

// Satellite number `index` of a frame in an edition. Order 14, 15, 16, 15, 16, then 5 for the edition, 6, 7, 8, 9, 10, 13.
pub fn rtcm2_observation_at(edition: u8, frame: &[u8], index: usize, observation: &mut [u8]) -> u8
    ensures value { result ≡ number_of (row_to row (entry_said edition (frame_said frame.now) index) observation.old) }
    ensures observation_after { observation.new ≡ row_held row (entry_said edition (frame_said frame.now) index) observation.old }
{
    let recalled = journal::recall(frame);
    let answer = recalled.answer;
    match answer {
        Found::Record(_) => {
            let whole = recalled.frame;
            read_in(edition, whole, index, observation)
        }
        Found::Refused(number) => number,
    }
}

// The frame of a header, a head and the satellites in these bytes, in an edition.
fn made_of(edition: Edition, header: Header, epoch: Epoch, observations: &[u8]) -> Made
    ensures { result ≡ make_observations edition header epoch (entries_from row 15 observations.now)
        (count_of (row_size row) (length observations.now)) }
{
    let count = rtcm2_rows::row::count_of(rtcm2_rows::observation::SIZE, observations.len());
    let entries = rtcm2_rows::observation::observations_in(observations);
    record_observations::make_observations(edition, header, epoch, entries, count)
}

// Makes a frame of observations in an edition. Order 5, the edition first, 6, 7, 12, 10, 13.
pub fn rtcm2_make_observations(
    edition: u8,
    kind: u8,
    station: u16,
    z: u16,
    sequence: u8,
    health: u8,
    frequency: u8,
    smoothing: u8,
    time: u32,
    observations: &[u8],
    frame: &mut [u8],
    length: &mut usize,
) -> u8
    ensures value { result ≡ number_of (kept_to (made_said edition (headed kind station z sequence health) frequency smoothing time observations.now)
        frame.old) }
    ensures frame_after { frame.new ≡ held_to (made_said edition (headed kind station z sequence health) frequency smoothing time observations.now)
        frame.old }
    ensures length_after { length.new ≡ size_to (made_said edition (headed kind station z sequence health) frequency smoothing time observations.now)
        frame.old length.old }
{
    let epoch = Epoch {
        frequency,
        smoothing,
        time,
    };
    match edition_of(edition) {
        Named::Edition(named) => match crate::header::header_of(
            kind, station, z, sequence, health,
        ) {
            Headed::Header(header) => crate::frames::keep_made(
                made_of(named, header, epoch, observations),
                frame,
                length,
            ),
            Headed::Refused(number) => number,
        },
        Named::Refused(number) => number,
    }
}
