//! What no clause says: fixed bytes, printed text, the trusted edge, and each call once with memory.

mod lists;
mod outside;
mod places;
mod system;
mod text;
