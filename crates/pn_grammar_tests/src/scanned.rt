//! Trees of texts.

ghost use Rattle.std.specs.Prelude.{ℕ, List};
ghost use Rattle.pn_scan.specs.Reading.{HasRead};

use pn_scan::{ScanFault, Scanner};
use pn_tree::Tree;
use std::alloc::Global;

/// Feeds the text whole.
fn feed(scanner: &mut Scanner, text: &str) -> Result<(), ScanFault>
    requires read { (b : List ℕ) × HasRead scanner.old b }
    ensures { (b : List ℕ) × HasRead scanner.new b }
{
    scanner.feed(text.as_bytes())
}

/// The tree that a text spells.
pub(crate) fn scanned(alloc: Global, text: &str) -> Result<Tree, ScanFault> {
    let mut scanner = Scanner::new(alloc);
    match feed(&mut scanner, text) {
        Ok(()) => scanner.finish(),
        Err(fault) => {
            drop(scanner);
            Err(fault)
        }
    }
}
