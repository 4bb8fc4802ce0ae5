//! Tests of what reads the parts of nets from elements, by what those crates make public.
#![tactic(auto)]

#[cfg(test)]
mod nets;
#[cfg(test)]
mod reading;
#[cfg(test)]
mod scanned;
#[cfg(test)]
mod shown;
#[cfg(test)]
mod shown_nets;
#[cfg(test)]
mod written_nets;
