//! The flat net of a net: one page, no references (ISO/IEC 15909-2, pages and references).
#![tactic(auto)]

mod ends;
mod flattening;
mod follow;
mod gather;
pub mod laws;
mod linking;
mod names;
mod noting;
mod numbered;
mod single_page;
mod wiring;

pub use flattening::flatten;
pub use single_page::{flat_net, typed_net};
