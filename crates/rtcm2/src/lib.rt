// The line package as a library for C and Rust: each exported function answers 0 or the refusal's number.
#![tactic(auto)]

pub mod beacon;
pub mod correction;
pub mod frames;
pub mod general;
mod header;
pub mod health;
pub mod listening;
pub mod mending;
pub mod null;
pub mod observation;
pub mod position;
mod rows;
pub mod season;
pub mod send;
pub mod text;
pub mod turns;
pub mod values;
pub mod window;
pub mod words;
