// The satellites that corrections are for, and whether one of them stands among others.
ghost use Rattle.std.specs.Prelude.{◌≡◌, eqb};
ghost use Rattle.frame.specs.Widths.{any_of};
ghost use Rattle.record_corrections.specs.Corrections.{correction_at};
ghost use Rattle.profile.specs.Profile.{repeated};
ghost use Rattle.profile.specs.Cutting.{satellites_of};
ghost use Rattle.profile.specs.Arms.{satellite_read};

use frame::Frame;
use record_corrections::{Correction, CorrectionRead};

// The satellite of correction number `index` of a frame; 0, which is none, where it can't be read.
pub(crate) fn satellite_at(frame: Frame, index: usize) -> u8
    ensures { result ≡ satellite_read (correction_at frame index) }
{
    let found = record_corrections::correction_at(frame, index);
    match found {
        CorrectionRead::Entry(e) => e.satellite,
        CorrectionRead::Refused(_) => 0,
    }
}

// The satellites of all entries.
pub(crate) fn satellites_of(entries: [Correction; 18]) -> [u8; 18]
    ensures { result ≡ satellites_of entries }
{
    entries.map(|e| e.satellite)
}

// Whether a satellite is one of others.
fn is_among(satellite: u8, others: &[u8]) -> bool
    ensures { result ≡ any_of (eqb satellite) others.now }
{
    others.contains(&satellite)
}

// Whether one of these satellites stands there again.
pub(crate) fn twice(satellites: &[u8]) -> bool
    ensures { result ≡ repeated satellites.now }
{
    for (i, satellite) in satellites.iter().enumerate() {
        if is_among(*satellite, &satellites[i + 1..]) {
            return true;
        }
    }
    false
}
