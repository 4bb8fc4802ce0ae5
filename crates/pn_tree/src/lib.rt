//! Element trees and their canonical text.
#![tactic(auto)]

mod builder;
mod copy;
mod element;
mod nodes;
mod put;
mod site;
mod slots;
mod store;
mod tables;
mod tree;
mod view;

pub use builder::Builder;
use element::{Attr, Child, Element};
pub use put::{put_tree, text_length};
pub use tree::Tree;
pub use view::{Kid, View};
