// The lines of the report, in ASCII.
// kept: a buffer with a place beside it, as `printed_by` and `printed_to`, the contract of `printing::put_labelled`, have them
ghost use Rattle.std.specs.Prelude.{◌≡◌, ◌+◌, ◌*◌, ◌≤◌, ◌++◌, length};
ghost use Rattle.std.proofs.lemmas.List.Edits.{sets};
ghost use Rattle.printing.specs.Printing.{decimal};
ghost use Rattle.mender.specs.Report.{change_line, byte_line, differs, lost_line};

// Writes a label and a number from `place` on, and answers the place after them. There is room for both, so they are not refused.
fn put_part(label: &[u8], n: u64, place: usize, buffer: &mut [u8]) -> usize
    requires { place + length (label.now ++ decimal n) ≤ length buffer.old }
    ensures value { result ≡ place + length (label.now ++ decimal n) }
    ensures buffer_after { buffer.new ≡ sets buffer.old place (label.now ++ decimal n) }
{
    let Ok(next) = printing::put_labelled(label, n, place, buffer) else {
        return place;
    };
    next
}

// Writes a change from `place` on, and answers the place after it.
fn put_change(at: u64, old: u8, new: u8, place: usize, buffer: &mut [u8]) -> usize
    requires { place + 29 ≤ length buffer.old }
    ensures value { result ≡ place + length (change_line at old new) }
    ensures buffer_after { buffer.new ≡ sets buffer.old place (change_line at old new) }
{
    let first = put_part(b"", at, place, buffer);
    let second = put_part(b" ", old as u64, first, buffer);
    let third = put_part(b" ", new as u64, second, buffer);
    buffer[third] = b'\n';
    third + 1
}

// Writes a byte's change from `place` on where it has one, and answers the place after it.
pub(crate) fn put_byte(at: u64, old: u8, new: u8, place: usize, buffer: &mut [u8]) -> usize
    requires { place + 29 * differs old new ≤ length buffer.old }
    ensures value { result ≡ place + length (byte_line at old new) }
    ensures buffer_after { buffer.new ≡ sets buffer.old place (byte_line at old new) }
{
    if old == new {
        return place;
    }
    put_change(at, old, new, place, buffer)
}

// Writes that a record is lost from the buffer's start on, and answers the place after it.
pub(crate) fn put_lost(at: u64, buffer: &mut [u8]) -> usize
    requires { 29 ≤ length buffer.old }
    ensures value { result ≡ length (lost_line at) }
    ensures buffer_after { buffer.new ≡ sets buffer.old 0 (lost_line at) }
{
    let next = put_part(b"lost ", at, 0, buffer);
    buffer[next] = b'\n';
    next + 1
}
