//! Trials of what no case of a data file shows of live queries: events over an asker in memory, and talks whose asks and links fail.
#![tactic(auto)]

#[cfg(test)]
mod tests;
