// The hunt goes on: by six bits and by bytes.
ghost use Rattle.std.specs.Prelude.{◌≡◌, ◌+◌, ◌*◌, ◌^◌, ◌<◌, ◌≤◌, false, length};
ghost use Rattle.reader.specs.Five.{sixes_of};
ghost use Rattle.reader.specs.Reading.{past_of, moved_to, step_cells, step_to, many_cells, many_to, later as later_than, FiveIn, run_to};

use crate::Candidate;
use crate::cells::{push, put_five};
use crate::five::{all_data, joined, thirty_of};
use crate::hunt::{Halt, glance, hunt, seek};

// What a run over bytes left beside the cells.
#[derive(Clone, Copy)]
pub(crate) struct Ran {
    pub candidate: Candidate,
    pub used: usize,
    pub passed: usize,
}

// The candidate where a hunt stops.
#[tactic(auto, unfolding(crate::specs::Reading::moved_to))]
pub(crate) fn moved(at: u32, end: usize, held: usize, halt: Halt) -> Candidate
    requires { (halt.left ≤ held) × (held ≤ 1280) }
    ensures { result ≡ moved_to at end held halt }
{
    let tally = halt.tally;
    Candidate {
        end,
        held: halt.left,
        words: halt.words,
        at: at.wrapping_add((held - halt.left) as u32),
        waits: halt.found,
        tally,
    }
}

// Six bits more that bring no word to its end: they are held, and there is nothing to hunt for.
fn hold(cells: &mut [u32; 40], c: Candidate, six: u32) -> Candidate
    requires { (length cells.old ≡ 40) × (c.end ≤ 1280) × (c.held ≤ c.end) × (c.held ≤ 991) × (c.words ≤ 32) × (six < 64)
        × (c.held + 6 < 32 + 30 * c.words) }
    ensures { (result ≡ step_to cells.old c six) × (cells.new ≡ step_cells cells.old c six) }
{
    let tally = c.tally;
    let held = c.held + 6;
    let end = push(cells, c.end, c.held, six);
    let undecided = Halt {
        left: held,
        words: c.words,
        found: false,
        tally,
    };
    moved(c.at, end, held, undecided)
}

// Six bits more, and the hunt goes on; where the next word has not come there is nothing to hunt for.
pub(crate) fn step(cells: &mut [u32; 40], c: Candidate, six: u32) -> Candidate
    requires { (length cells.old ≡ 40) × (c.end ≤ 1280) × (c.held ≤ c.end) × (c.held ≤ 991) × (c.words ≤ 32) × (six < 64) }
    ensures { (result ≡ step_to cells.old c six) × (cells.new ≡ step_cells cells.old c six) }
{
    let words = c.words;
    let tally = c.tally;
    let held = c.held + 6;
    let end = push(cells, c.end, c.held, six);
    let left = seek(cells, end, held, words);
    if left < 32 + 30 * words {
        let undecided = Halt {
            left,
            words,
            found: false,
            tally,
        };
        return moved(c.at, end, held, undecided);
    }
    let halt = hunt(cells, end, left, words, false, tally);
    moved(c.at, end, held, halt)
}

// The next word; where none is known the second, since no frame has less than two.
fn later(words: usize) -> usize
    ensures { (result ≡ later_than words) × (result ≤ words + 1) }
{
    if words == 0 {
        return 1;
    }
    words
}

// The thirty bits of the next five bytes, where each carries six, the first four bring no frame to its end, and there is room for all.
fn five_of(c: Candidate, bytes: &[u8], at: usize) -> Option<u32>
    requires { (at ≤ length bytes.now) × (c.held ≤ 991) × (c.words ≤ 32) }
    ensures { FiveIn c bytes.now at result }
{
    if 1192 < c.end {
        return None;
    }
    if 32 + 30 * later(c.words) <= c.held + 24 {
        return None;
    }
    if bytes.len() - at < 5 {
        return None;
    }
    let five = joined(bytes, at);
    if !all_data(five) {
        return None;
    }
    Some(thirty_of(five))
}

// Thirty bits more, of whose five sixes the first four bring no frame to its end, and the hunt goes on: once, for what five times would find.
fn burst(cells: &mut [u32; 40], c: Candidate, thirty: u32) -> Candidate
    requires { (length cells.old ≡ 40) × (c.end ≤ 1192) × (c.held ≤ c.end) × (c.held ≤ 991) × (c.words ≤ 32)
        × (c.held + 24 < 32 + 30 * later_than c.words) × (thirty < 2 ^ 30) }
    ensures { (result ≡ many_to cells.old c (sixes_of thirty))
        × (cells.new ≡ many_cells cells.old c (sixes_of thirty)) }
{
    let words = c.words;
    let tally = c.tally;
    let held = c.held + 30;
    let end = c.end + 30;
    put_five(cells, c.end, thirty);
    let left = seek(cells, end, held, words);
    if left < 32 + 30 * words {
        let undecided = Halt {
            left,
            words,
            found: false,
            tally,
        };
        return moved(c.at, end, held, undecided);
    }
    if let Some(halt) = glance(cells, end, left, words, tally) {
        return moved(c.at, end, held, halt);
    }
    let halt = hunt(cells, end, left, words, false, tally);
    moved(c.at, end, held, halt)
}

// Bytes fed until a frame waits or none is left.
pub(crate) fn run(cells: &mut [u32; 40], from: Candidate, bytes: &[u8]) -> Ran
    requires { (length cells.old ≡ 40) × (past_of from ≡ false) }
    ensures { record { cells = cells.exit.now; candidate = result.candidate; used = result.used; passed = result.passed }
        ≡ run_to cells.entry.now from bytes.now }
{
    let mut c = from;
    let mut passed: usize = 0;
    let mut used: usize = 0;
    // kept: a turn uses five bytes or one, so no iterator goes over the bytes
    while used < bytes.len() {
        if c.waits {
            return Ran {
                candidate: c,
                used,
                passed,
            };
        }
        if let Some(thirty) = five_of(c, bytes, used) {
            c = burst(cells, c, thirty);
            used += 5;
        } else {
            let line = line::six_of(bytes[used]);
            used += 1;
            if let Ok(six) = line {
                if c.held + 6 < 32 + 30 * c.words {
                    c = hold(cells, c, six);
                } else {
                    c = step(cells, c, six);
                }
            } else {
                passed += 1;
            }
        }
    }
    Ran {
        candidate: c,
        used,
        passed,
    }
}
