// The word test of one window, for a program that holds the words of two receivers against each other.
ghost use Rattle.std.specs.Prelude.{◌≡◌};
ghost use Rattle.rtcm2.specs.Answer.{number_of, left};
ghost use Rattle.rtcm2.specs.Window.{remainder_said};

// The remainder of a window. No refusal.
#[unsafe(no_mangle)]
pub extern "C" fn rtcm2_remainder(window: u32, remainder: &mut u8) -> u8
    ensures value { result ≡ number_of (remainder_said window) }
    ensures remainder_after { remainder.new ≡ left (remainder_said window) (λ k. k) remainder.old }
{
    rtcm2::window::rtcm2_remainder(window, remainder)
}
