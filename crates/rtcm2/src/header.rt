// The header of a frame that is made: it comes as five numbers.
ghost use Rattle.std.specs.Prelude.{◌≡◌};
ghost use Rattle.rtcm2.specs.Header.{headed_by};

use frame::Header;

// A header, or the refusal's number.
#[derive(Clone, Copy)]
pub(crate) enum Headed {
    Header(Header),
    Refused(u8),
}

// The header of five numbers; 5 for a health over 7. Its other widths are looked at where the frame is made.
pub(crate) fn header_of(kind: u8, station: u16, z: u16, sequence: u8, health: u8) -> Headed
    ensures { result ≡ headed_by kind station z sequence health }
{
    if health > 7 {
        return Headed::Refused(5);
    }
    let state = frame::state_of(health as u32);
    Headed::Header(Header {
        kind,
        station,
        z,
        sequence,
        state,
    })
}
