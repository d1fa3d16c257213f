// Type 6: the worked vectors of null frames, made and read, and what reading and making refuse.
#![tactic(auto)]

mod making;
mod reading;
mod vectors;

fn main() {
    vectors::print_vectors();
    reading::print_answers();
    making::print_answers();
}
