// The window that a file is read through, filled behind what it holds.
ghost use Rattle.std.specs.Prelude.{◌≡◌, ◌≤◌, length};

use std::fs::File;
use std::io::{Error, Read};

// How filling the window ended: it is full, or the file is at its end.
#[derive(Clone, Copy)]
pub(crate) enum Filling {
    Full,
    End,
}

// Fills the window behind the bytes that it holds, which are then more.
pub(crate) fn fill(file: &mut File, window: &mut [u8], held: &mut usize) -> Result<Filling, Error>
    requires { held.old ≤ length window.old }
    ensures held_in_bounds { held.new ≤ length window.new }
    ensures window_len_unchanged { length window.new ≡ length window.old }
{
    // kept: no index is counted here, each read says how many bytes came
    while *held < window.len() {
        let more = file.read(&mut window[*held..])?;
        if more == 0 {
            return Ok(Filling::End);
        }
        *held += more;
    }
    Ok(Filling::Full)
}
