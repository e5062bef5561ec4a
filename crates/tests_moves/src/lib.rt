// Registers on their way to a backing store and back, at every alignment.
#![tactic(auto)]

#[cfg(test)]
mod trips;
