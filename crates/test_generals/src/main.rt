// Types 41 and 42: the worked vectors, made from their fields and read from their words, what reading and making refuse, and what numbers mean.
#![tactic(auto)]

mod making;
mod reading;
mod show;
mod values;
mod vectors;

fn main() {
    vectors::print_vectors();
    reading::print_answers();
    making::print_answers();
    values::print_answers();
}
