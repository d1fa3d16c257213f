// Types 31 to 34 and 36: the worked vectors of GLONASS, made from their fields and read from their words, and what reading and making refuse.
#![tactic(auto)]

mod corrections;
mod healths;
mod letters;
mod making;
mod nulls;
mod positions;
mod reading;

fn main() {
    corrections::print_vectors();
    nulls::print_vectors();
    positions::print_vectors();
    healths::print_vectors();
    letters::print_vectors();
    reading::print_answers();
    making::print_answers();
}
