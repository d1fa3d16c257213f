// Lines as text, in ASCII.
// kept: a buffer with a place beside it, as `printed_by` and `printed_to`, the contract of `printing::put_number`, have them
ghost use Rattle.std.specs.Prelude.{◌≡◌, ◌+◌, ◌≤◌, false, ◌++◌, length};
ghost use Rattle.std.proofs.lemmas.List.Edits.{sets};
ghost use Rattle.frame.specs.Widths.{state_outside, pair_outside};
ghost use Rattle.printing.specs.Printing.{decimal};
ghost use Rattle.listing.specs.Listing.{numbers_room, line_room};
ghost use Rattle.listing.specs.Text.{spaced, pair_last, frame_line, odd_line, last_line};

use frame::{Carried, Frame};

// Writes seven numbers from `place` on, each with a space after it, and answers the place after them. There is room for all, so none is refused.
fn put_numbers(numbers: &[u64; 7], place: usize, buffer: &mut [u8]) -> usize
    requires { (length numbers.now ≡ 7) × (place + numbers_room ≤ length buffer.old) }
    ensures value { (result ≡ place + length (spaced numbers.now)) × (result ≤ place + numbers_room) }
    ensures buffer_after { buffer.new ≡ sets buffer.old place (spaced numbers.now) }
{
    let mut next = place;
    for number in numbers {
        let Ok(end) = printing::put_number(*number, next, buffer) else {
            return place;
        };
        buffer[end] = b' ';
        next = end + 1;
    }
    next
}

// Writes a carried pair as two digits, D29* first, and a newline from `place` on, and answers the place after them.
fn put_pair(carried: Carried, place: usize, buffer: &mut [u8]) -> usize
    requires { (pair_outside carried ≡ false) × (place + 3 ≤ length buffer.old) }
    ensures value { result ≡ place + 3 }
    ensures buffer_after { buffer.new ≡ sets buffer.old place (pair_last carried) }
{
    buffer[place] = b'0' + carried.d29;
    buffer[place + 1] = b'0' + carried.d30;
    buffer[place + 2] = b'\n';
    place + 3
}

// Writes a frame's line from `place` on, and answers the place after it.
pub(crate) fn put_frame(at: u64, frame: Frame, place: usize, buffer: &mut [u8]) -> usize
    requires { (state_outside frame.header.state ≡ false) × (pair_outside frame.carried ≡ false) × (place + line_room ≤ length buffer.old) }
    ensures value { (result ≡ place + length (frame_line at frame)) × (result ≤ place + line_room) }
    ensures buffer_after { buffer.new ≡ sets buffer.old place (frame_line at frame) }
{
    let carried = frame.carried;
    let header = frame.header;
    let state = header.state;
    let Ok(health) = frame::health_of(state) else {
        return place;
    };
    let numbers = [
        at,
        header.kind as u64,
        header.station as u64,
        header.z as u64,
        header.sequence as u64,
        frame.n as u64,
        health as u64,
    ];
    let next = put_numbers(&numbers, place, buffer);
    put_pair(carried, next, buffer)
}

// Writes a label and a total from `place` on, and answers the place after them. There is room for both, so they are not refused.
fn put_total(label: &[u8], total: u64, place: usize, buffer: &mut [u8]) -> usize
    requires { place + length label.now + 20 ≤ length buffer.old }
    ensures value { (result ≡ place + length (label.now ++ decimal total)) × (result ≤ place + length label.now + 20) }
    ensures buffer_after { buffer.new ≡ sets buffer.old place (label.now ++ decimal total) }
{
    let Ok(next) = printing::put_labelled(label, total, place, buffer) else {
        return place;
    };
    next
}

// Writes the second last line from `place` on, and answers the place after it.
pub(crate) fn put_odd(odd: u32, even: u32, place: usize, buffer: &mut [u8]) -> usize
    requires { place + line_room ≤ length buffer.old }
    ensures value { (result ≡ place + length (odd_line odd even)) × (result ≤ place + line_room) }
    ensures buffer_after { buffer.new ≡ sets buffer.old place (odd_line odd even) }
{
    let first = put_total(b"odd ", odd as u64, place, buffer);
    let second = put_total(b" even ", even as u64, first, buffer);
    buffer[second] = b'\n';
    second + 1
}

// Writes the last line from `place` on, and answers the place after it.
pub(crate) fn put_last(
    frames: u64,
    bytes: u64,
    passed: u64,
    place: usize,
    buffer: &mut [u8],
) -> usize
    requires { place + line_room ≤ length buffer.old }
    ensures value { (result ≡ place + length (last_line frames bytes passed)) × (result ≤ place + line_room) }
    ensures buffer_after { buffer.new ≡ sets buffer.old place (last_line frames bytes passed) }
{
    let first = put_total(b"frames ", frames, place, buffer);
    let second = put_total(b" bytes ", bytes, first, buffer);
    let third = put_total(b" passed ", passed, second, buffer);
    buffer[third] = b'\n';
    third + 1
}
