// Examples of lines read, of inputs cut into lines, and of lines printed.
#![tactic(auto)]

#[cfg(test)]
mod lines;
#[cfg(test)]
mod printed;
#[cfg(test)]
mod reading;
