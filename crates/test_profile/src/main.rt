// The small-beacon profile: which frames its checker accepts, what its sender cuts of worked lists, and what both refuse.
#![tactic(auto)]

mod checks;
mod cuts;
mod entries;

fn main() {
    checks::print_corrections();
    checks::print_others();
    cuts::print_vectors();
    cuts::print_answers();
}
