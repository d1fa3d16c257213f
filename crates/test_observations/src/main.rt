// Types 18 and 19: the worked vectors of both editions, made from their fields and read from their words, what reading and making refuse, and
// what codes mean.
#![tactic(auto)]

mod entries;
mod making;
mod meaning;
mod reading;
mod show;
mod vectors;

fn main() {
    vectors::print_vectors();
    reading::print_answers();
    making::print_answers();
    meaning::print_answers();
}
