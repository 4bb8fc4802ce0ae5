//! The tests of the values of terms, by what that crate makes public.
#![tactic(auto)]

#[cfg(test)]
mod assigned;
#[cfg(test)]
mod declared;
#[cfg(test)]
mod rows;
#[cfg(test)]
mod values;
