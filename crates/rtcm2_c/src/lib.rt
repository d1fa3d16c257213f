// The library for C: librtcm2.a exports each function of rtcm2 under its own name, and each keeps the contract that it has there.
#![tactic(auto)]

pub mod beacon;
pub mod correction;
pub mod frames;
pub mod general;
pub mod health;
pub mod listening;
pub mod mending;
pub mod null;
pub mod observation;
pub mod position;
pub mod season;
pub mod send;
pub mod text;
pub mod turns;
pub mod values;
pub mod window;
pub mod words;
