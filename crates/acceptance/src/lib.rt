//! Tests of the whole project, of what no contract says: that want of memory is not answered without cause, by calls of public functions
//! that take memory, and how the program meets sources and sinks that fail. No other crate has tests.
#![tactic(auto)]

#[cfg(test)]
mod calls;
#[cfg(test)]
mod planners;
#[cfg(test)]
mod program;
#[cfg(test)]
mod runs;
