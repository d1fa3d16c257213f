// What answers have in common: why a call refuses.
#![tactic(auto)]

ghost use Rattle.std.specs.Prelude.{◌≡◌};
ghost use Rattle.answer.specs.Table.{refusal_number};

// Why a call refuses: the table of refusals, in the order of its numbers, the first of which is 1.
#[derive(Clone, Copy, Debug, PartialEq, Eq)]
pub enum Refusal {
    NoDataByte = 1,
    FrameWaits = 2,
    InputEnded = 3,
    NoFrame = 4,
    Width = 5,
    OtherType = 6,
    ZCount = 7,
    WordCount = 8,
    NoEntry = 9,
    Field = 10,
    Character = 11,
    EntryCount = 12,
    ShortBuffer = 13,
    NoMark = 14,
    CutShort = 15,
    BadRecord = 16,
    Parity = 17,
    FullReport = 18,
    FullCount = 19,
    OutsideProfile = 20,
    ManySatellites = 21,
    TwiceASatellite = 22,
    OtherSystem = 23,
}

impl Refusal {
    // Its number in the table.
    pub fn number(self) -> u8
        ensures { result ≡ refusal_number self }
    {
        self as u8
    }
}
