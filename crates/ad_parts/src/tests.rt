//! The layouts of files that compilers made, and the limits of a layout.

mod files;
mod layouts;
mod written;
