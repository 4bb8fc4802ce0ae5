//! Tests of the top call: what it writes for words and a document, and how it ends.
#![tactic(auto)]

#[cfg(test)]
mod coloured;
#[cfg(test)]
mod links;
#[cfg(test)]
mod modes;
#[cfg(test)]
mod steps;
#[cfg(test)]
mod tests;
