// Entries of the list records as lent bytes, a row of bytes for each entry.
#![tactic(auto)]

pub mod correction;
pub mod general;
mod number;
pub mod observation;
pub mod row;
pub mod table;
