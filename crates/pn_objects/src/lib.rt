//! Nets, pages, objects and labels as a document writes them (ISO/IEC 15909-2, the core model and
//! its net types). What their declarations, sorts and terms write is in `pn_syntax`.
#![tactic(auto)]

mod copies;
mod label;
mod net;
mod object;

pub use label::{Head, Label};
pub use net::{Net, Page, Prefix};
pub use object::{Arc, Place, Reference, Transition};
