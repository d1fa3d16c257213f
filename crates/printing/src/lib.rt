// Numbers as text, in ASCII, put into a lent buffer: alone or behind a label; and of a signed number what stands behind its sign.
#![tactic(auto)]

ghost use Rattle.std.specs.Prelude.{◌≡◌, ◌++◌, ◌+◌, ltb, length};
ghost use Rattle.printing.specs.Printing.{magnitude_of, last_digits, digits_up_to, decimal, printed_by, printed_to};

use answer::Refusal;

// How far a signed number is from 0.
// kept: `StreamCalls` of the promises has its contract as the field `magnitude`; it is the library's `unsigned_abs`
pub fn magnitude(z: i64) -> u64
    ensures { result ≡ magnitude_of z }
{
    z.unsigned_abs()
}

// How many digits a number has; 0 has one.
fn digits_in(n: u64) -> usize
    ensures { result ≡ digits_up_to 20 n }
{
    n.max(1).ilog10() as usize + 1
}

// Whether `room` bytes are too few for `count` bytes from `place` on.
fn too_short(room: usize, place: usize, count: usize) -> bool
    ensures { result ≡ ltb room (place + count) }
{
    room < place || room - place < count
}

// Fills a slice with the last digits of a number.
fn put_digits(n: u64, digits: &mut [u8])
    ensures { digits.new ≡ last_digits (length digits.old) n }
{
    let mut left = n;
    for i in (0..digits.len()).rev() {
        digits[i] = b'0' + (left % 10) as u8;
        left /= 10;
    }
}

// Prints a number's digits from `place` on: 13 where the buffer has no room for them.
pub fn put_number(n: u64, place: usize, buffer: &mut [u8]) -> Result<usize, Refusal>
    ensures value { result ≡ printed_by (decimal n) place buffer.old }
    ensures buffer_after { buffer.new ≡ printed_to (decimal n) place buffer.old }
{
    let count = digits_in(n);
    if too_short(buffer.len(), place, count) {
        return Err(Refusal::ShortBuffer);
    }
    let end = place + count;
    put_digits(n, &mut buffer[place..end]);
    Ok(end)
}

// Prints a label and a number's digits behind it from `place` on: 13 where the buffer has no room for both.
pub fn put_labelled(label: &[u8], n: u64, place: usize, buffer: &mut [u8]) -> Result<usize, Refusal>
    ensures value { result ≡ printed_by (label.now ++ decimal n) place buffer.old }
    ensures buffer_after { buffer.new ≡ printed_to (label.now ++ decimal n) place buffer.old }
{
    if too_short(buffer.len(), place, label.len()) {
        return Err(Refusal::ShortBuffer);
    }
    let next = place + label.len();
    let count = digits_in(n);
    if too_short(buffer.len(), next, count) {
        return Err(Refusal::ShortBuffer);
    }
    let end = next + count;
    buffer[place..next].copy_from_slice(label);
    put_digits(n, &mut buffer[next..end]);
    Ok(end)
}
