// Examples of the kinds word and pair, and of a ring of each.
#![tactic(auto)]

#[cfg(test)]
mod kinds;
#[cfg(test)]
mod rings;
