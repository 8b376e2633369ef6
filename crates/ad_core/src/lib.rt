//! The plain machine: instructions over 64-bit numbers and any bus.
#![tactic(auto)]

mod bus;
mod effect;
mod hart;
mod laws;
mod run;
mod service;
mod step;

pub use bus::{Bus, Fetched, Refusal, Served};
pub use laws::{
    law_data_segments, law_extents_stay, law_worked_accesses, law_worked_calls, law_worked_services,
};
pub use run::call;
pub use service::{make_service, service_at};

#[cfg(test)]
mod tests;
