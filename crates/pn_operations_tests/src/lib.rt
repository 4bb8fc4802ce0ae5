//! Tests of what operators give for what their arguments gave.
#![tactic(auto)]

#[cfg(test)]
mod limits;
#[cfg(test)]
mod rows;
#[cfg(test)]
mod written;
