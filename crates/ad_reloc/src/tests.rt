//! Fields that spell numbers, relocations that are refused, and images.

mod fields;
mod file;
mod images;
mod refusals;
