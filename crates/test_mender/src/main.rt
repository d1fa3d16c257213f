// The mender's worked journals: each is mended step by step, and written are its report, how many bytes were passed over, and its bytes.
#![tactic(auto)]

mod journals;
mod mending;
mod show;
mod worked;

fn main() {
    worked::show_sound();
    worked::show_single_bits();
    worked::show_two_bits();
    worked::show_wrong_number();
    worked::show_broken_header();
    worked::show_numberless();
    worked::show_turned_mark();
    worked::show_cut_short();
    worked::show_number_mended();
    worked::show_three_bits();
    worked::show_other_word();
    worked::show_mark_behind_mark();
}
