// The worked reports of a season: of a journal whole and in two parts, the second part's added to the first's, and what adding two reports answers.
#![tactic(auto)]

mod adding;
mod journals;
mod reports;
mod show;

fn main() {
    journals::print_whole();
    journals::print_parts();
    adding::print_room();
    adding::print_counts();
    adding::print_bad();
    adding::print_ends();
}
