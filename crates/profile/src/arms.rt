// What the profile asks of each of its types, once 5 and 7 are passed: the record is read, and of type 9 the satellites are looked at.
ghost use Rattle.std.specs.Prelude.{◌≡◌, [], ◌∷◌};
ghost use Rattle.record_stages.specs.Stages.{says_count};
ghost use Rattle.record_healths.specs.Healths.{count_healths};
ghost use Rattle.record_nulls.specs.Nulls.{read_null, says_null_read};
ghost use Rattle.record_positions.specs.Positions.{read_position, says_position_read};
ghost use Rattle.profile.specs.Arms.{settled, corrections_profile, few_profile, text_profile};

use crate::Profile;
use crate::satellites::{satellite_at, twice};
use frame::Frame;
use record_nulls::NullRead;
use record_positions::PositionRead;
use record_stages::Count;

// Type 3: 8, 10.
pub(crate) fn position_profile(frame: Frame) -> Profile
    ensures { result ≡ settled (says_position_read (read_position frame)) }
{
    let found = record_positions::read_position(frame);
    match found {
        PositionRead::At(_) => Profile::Inside,
        PositionRead::Refused(n) => Profile::Refused(n),
    }
}

// Type 5, whose entries all can be read: 8.
pub(crate) fn healths_profile(frame: Frame) -> Profile
    ensures { result ≡ settled (says_count (count_healths frame)) }
{
    let found = record_healths::count_healths(frame);
    match found {
        Count::Of(_) => Profile::Inside,
        Count::Refused(n) => Profile::Refused(n),
    }
}

// Type 6: 8.
pub(crate) fn null_profile(frame: Frame) -> Profile
    ensures { result ≡ settled (says_null_read (read_null frame)) }
{
    let found = record_nulls::read_null(frame);
    match found {
        NullRead::Null(_) => Profile::Inside,
        NullRead::Refused(n) => Profile::Refused(n),
    }
}

// Type 16, read into a buffer that has room for every text: 8, 11.
pub(crate) fn text_profile(frame: Frame) -> Profile
    ensures { result ≡ text_profile frame }
{
    let mut buffer = [0u8; 90];
    let found = record_texts::read_text(frame, &mut buffer);
    match found {
        Count::Of(_) => Profile::Inside,
        Count::Refused(n) => Profile::Refused(n),
    }
}

// Of so many corrections of a frame: 21, 22.
fn few_profile(frame: Frame, count: usize) -> Profile
    ensures { result ≡ few_profile frame count }
{
    if count > 3 {
        return Profile::Refused(21);
    }
    let satellites = [
        satellite_at(frame, 0),
        satellite_at(frame, 1),
        satellite_at(frame, 2),
    ];
    if twice(&satellites[..count]) {
        return Profile::Refused(22);
    }
    Profile::Inside
}

// Type 9, whose entries all can be read: 8, 21, 22.
pub(crate) fn corrections_profile(frame: Frame) -> Profile
    ensures { result ≡ corrections_profile frame }
{
    let found = record_corrections::count_corrections(frame);
    match found {
        Count::Of(count) => few_profile(frame, count),
        Count::Refused(n) => Profile::Refused(n),
    }
}
