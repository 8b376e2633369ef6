//! Which words entries need, and why objects have no tables.

mod file;
mod words;
