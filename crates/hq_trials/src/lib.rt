//! Trials of what no case of a data file shows: the deepest texts on the usual stack, objects of the system, and generic functions
//! at the types of memory.
#![tactic(auto)]

#[cfg(test)]
mod tests;
