//! Tests of the words of instructions, and of object files.

mod objects;
mod parts;
mod words;
