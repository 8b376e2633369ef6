//! The table of refusals against files with one fault or two, on each side of each limit.

mod files;
mod refusals;
