// What the calls on lists share: how many entries a frame has, and whether a row was put, as numbers.
ghost use Rattle.std.specs.Prelude.{◌≡◌};
ghost use Rattle.record_stages.specs.Stages.{says_count};
ghost use Rattle.rtcm2_rows.specs.Rows.{says_put};
ghost use Rattle.rtcm2.specs.Answer.{number_of, left};
ghost use Rattle.rtcm2.specs.Frames.{frame_said};
ghost use Rattle.rtcm2.specs.Rows.{counted_in};

use frame::Layout;
use journal::Found;
use record_stages::Count;
use rtcm2_rows::row::Put;

// A count to its place, or the refusal's number.
pub(crate) fn count_to(said: Count, count: &mut usize) -> u8
    ensures value { result ≡ number_of (says_count said) }
    ensures count_after { count.new ≡ left (says_count said) (λ k. k) count.old }
{
    match said {
        Count::Of(entries) => {
            *count = entries;
            0
        }
        Count::Refused(number) => number,
    }
}

// 0 for a row that was put, or the refusal's number.
pub(crate) fn number_of(put: Put) -> u8
    ensures { result ≡ number_of (says_put put) }
{
    match put {
        Put::Done => 0,
        Put::Refused(number) => number,
    }
}

// How many entries of `width` bits a frame of a layout has behind a head of `head` bits. Order 14, 15, 16, 15, 16, then 6, 7, 8.
pub(crate) fn count_at(
    layout: Layout,
    head: usize,
    width: usize,
    frame: &[u8],
    count: &mut usize,
) -> u8
    ensures value { result ≡ number_of (counted_in layout head width (frame_said frame.now)) }
    ensures count_after { count.new ≡ left (counted_in layout head width (frame_said frame.now)) (λ k. k) count.old }
{
    let recalled = journal::recall(frame);
    let answer = recalled.answer;
    match answer {
        Found::Record(_) => {
            let said = record_stages::count_in(layout, head, width, recalled.frame);
            count_to(said, count)
        }
        Found::Refused(number) => number,
    }
}
