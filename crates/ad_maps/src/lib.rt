//! The mappings of the modules, on a table of atomic words that threads share.
#![tactic(auto)]

mod close;
mod free;
mod laws;
mod maps;
mod moves;
mod open;
mod retire;
mod shape;
mod steps;
mod table;
#[cfg(test)]
mod tests;
mod view;
mod words;

pub use close::Closed;
pub use laws::{
    law_enter, law_leave, law_list, law_map, law_opening, law_other, law_owing, law_own_pages,
    law_owner, law_read, law_reading, law_switch, law_unmap,
};
pub use maps::{Busy, Inside, Mapped, Maps, MoverSeat, Out, Room, Seat};
pub use shape::{Opening, Shape};
pub use view::{Act, Deed, Doing, Freeing, Hand, Made, Passing, Plan, Stage, Stance};
pub use words::{LINES, MEMBERS, MODULE_FRAMES, NUMBERS, SLOTS};
