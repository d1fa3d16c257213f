// What a technician reads: a line for each frame, and two lines of totals.
#![tactic(auto)]

ghost use Rattle.std.specs.Prelude.{◌≡◌, ◌+◌, ◌*◌, ◌≤◌, length};
ghost use Rattle.std.proofs.lemmas.List.Edits.{sets};
ghost use Rattle.listing.specs.Listing.{begun, fed_on, handed_on, ended_on, lines_of, lined_by, line_room, total_lines};
ghost use Rattle.listing.specs.Listing.{line_put, line_to};
ghost use Rattle.listing.specs.Listing.{ready_by, refused_listing, piece_by, piece_text, finish_by, finish_text};

mod text;

use answer::Refusal;
use frame::Frame;
use reader::{Answer, Reader};

// A reader and the running totals, each modulo 2^64: frames handed out, bytes read, bytes that carry no bit.
#[derive(Clone, Copy)]
pub struct Listing {
    pub reader: Reader,
    pub frames: u64,
    pub bytes: u64,
    pub passed: u64,
}

// What a call left: bytes of the input used, bytes of text written at the start of the output.
#[derive(Clone, Copy)]
pub struct Listed {
    pub answer: Answer,
    pub used: usize,
    pub written: usize,
    pub listing: Listing,
}

// Bytes fed, with the totals.
#[derive(Clone, Copy)]
pub struct Fed {
    pub used: usize,
    pub listing: Listing,
}

// How far the lines went.
#[derive(Clone, Copy)]
pub struct Lined {
    pub used: usize,
    pub written: usize,
    pub listing: Listing,
}

// Room for a line: seven numbers of at most twenty digits, each with the space after it, two digits and a newline.
const LINE_ROOM: usize = 7 * (20 + 1) + 3;

// Room for the lines that the end may release and for the two lines of totals.
const END_ROOM: usize = (16 + 2) * LINE_ROOM;

// A listing of which nothing has been read.
#[tactic(auto, unfolding(crate::specs::Listing::begun))]
pub fn new() -> Listing
    ensures { result ≡ begun }
{
    Listing {
        reader: reader::new(),
        frames: 0,
        bytes: 0,
        passed: 0,
    }
}

// Bytes fed until a frame waits or none is left; the totals count on.
#[tactic(auto, unfolding(crate::specs::Listing::fed_on))]
fn fed_on(listing: Listing, input: &[u8]) -> Fed
    ensures { result ≡ fed_on listing input.now }
{
    let fed = reader::feed_all(listing.reader, input);
    let used = fed.used;
    let reader = fed.reader;
    let bytes = listing.bytes.wrapping_add(used as u64);
    let passed = listing.passed.wrapping_add(fed.passed as u64);
    Fed {
        used,
        listing: Listing {
            reader,
            bytes,
            passed,
            ..listing
        },
    }
}

// A frame was handed out.
#[tactic(auto, unfolding(crate::specs::Listing::handed_on))]
fn handed_on(listing: Listing, reader: Reader) -> Listing
    ensures { result ≡ handed_on listing reader }
{
    let frames = listing.frames.wrapping_add(1);
    Listing {
        reader,
        frames,
        ..listing
    }
}

// The input has ended.
#[tactic(auto, unfolding(crate::specs::Listing::ended_on))]
fn ended_on(listing: Listing, reader: Reader) -> Listing
    ensures { result ≡ ended_on listing reader }
{
    Listing { reader, ..listing }
}

// Writes at most `lines` lines: bytes are fed until a frame waits, it is taken, and so on with the bytes left.
fn put_lines(listing: Listing, input: &[u8], lines: usize, output: &mut [u8]) -> Lined
    requires { line_room * lines ≤ length output.old }
    ensures value { result ≡ lined_by (lines_of lines listing input.now) }
    ensures used_in_bounds { (result.used ≤ length input.now) × (result.written ≤ line_room * lines) }
    ensures output_after { output.new ≡ sets output.old 0 (lines_of lines listing input.now).text }
{
    let mut state = listing;
    let mut used: usize = 0;
    let mut written: usize = 0;
    for _ in 0..lines {
        let fed = fed_on(state, &input[used..]);
        used += fed.used;
        state = fed.listing;
        let took = reader::take(state.reader);
        let answer = took.answer;
        let Answer::Done = answer else {
            return Lined {
                used,
                written,
                listing: state,
            };
        };
        written = text::put_frame(took.at as u64, took.frame, written, output);
        state = handed_on(state, took.reader);
    }
    Lined {
        used,
        written,
        listing: state,
    }
}

// Whether a reader takes bytes once its waiting frames are taken: 5, 3.
fn readiness(reader: Reader) -> Answer
    ensures { result ≡ ready_by reader }
{
    let fed = reader::feed_all(reader, b"");
    let answer = fed.answer;
    if let Answer::Refused(n) = answer {
        if n != 2 {
            return Answer::Refused(n);
        }
    }
    Answer::Done
}

// A refusal reads and writes nothing.
fn refusal(listing: Listing, n: u8) -> Listed
    ensures { result ≡ refused_listing listing n }
{
    Listed {
        answer: Answer::Refused(n),
        used: 0,
        written: 0,
        listing,
    }
}

// Lists a piece of the input at the start of the output, as far as there is room for lines: 5, 3, 13.
pub fn list_piece(listing: Listing, input: &[u8], output: &mut [u8]) -> Listed
    ensures value { result ≡ piece_by listing input.now (length output.old) }
    ensures output_after { output.new ≡ piece_text listing input.now output.old }
    ensures used_in_bounds { (result.used ≤ length input.now) × (result.written ≤ length output.new) }
{
    let ready = readiness(listing.reader);
    if let Answer::Refused(n) = ready {
        return refusal(listing, n);
    }
    if output.len() < LINE_ROOM {
        return refusal(listing, 13);
    }
    let lines = output.len() / LINE_ROOM;
    let lined = put_lines(listing, input, lines, output);
    let next = lined.listing;
    Listed {
        answer: Answer::Done,
        used: lined.used,
        written: lined.written,
        listing: next,
    }
}

// Writes the two lines of totals from `place` on, and answers the place after them.
fn put_totals(listing: Listing, place: usize, output: &mut [u8]) -> usize
    requires { place + 2 * line_room ≤ length output.old }
    ensures value { (result ≡ place + length (total_lines listing)) × (result ≤ place + 2 * line_room) }
    ensures output_after { output.new ≡ sets output.old place (total_lines listing) }
{
    let reader = listing.reader;
    let candidate = reader.candidate;
    let tally = candidate.tally;
    let next = text::put_odd(tally.odd, tally.even, place, output);
    text::put_last(listing.frames, listing.bytes, listing.passed, next, output)
}

// Ends the input, and writes the lines of the frames that this releases and the two lines of totals: 5, 3, 2, 13.
pub fn finish(listing: Listing, output: &mut [u8]) -> Listed
    ensures value { result ≡ finish_by listing (length output.old) }
    ensures output_after { output.new ≡ finish_text listing output.old }
    ensures written_in_bounds { result.written ≤ length output.new }
{
    let ended = reader::end(listing.reader);
    let answer = ended.answer;
    if let Answer::Refused(n) = answer {
        return refusal(listing, n);
    }
    if output.len() < END_ROOM {
        return refusal(listing, 13);
    }
    let lined = put_lines(ended_on(listing, ended.reader), b"", 16, output);
    let end = lined.listing;
    let written = put_totals(end, lined.written, output);
    Listed {
        answer: Answer::Done,
        used: 0,
        written,
        listing: end,
    }
}

// Writes the line of a frame at the start of the output, where it was found in place of the bit position: 5, 13.
pub fn put_line(at: u64, frame: Frame, output: &mut [u8]) -> Result<usize, Refusal>
    ensures value { result ≡ line_put at frame output.old }
    ensures output_after { output.new ≡ line_to at frame output.old }
{
    frame::frame_widths(frame)?;
    if output.len() < LINE_ROOM {
        return Err(Refusal::ShortBuffer);
    }
    let end = text::put_frame(at, frame, 0, output);
    Ok(end)
}
