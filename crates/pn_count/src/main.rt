//! A program that reads one document from standard input by the scanner alone and prints how many
//! elements it has. By it the benchmark measures the scanner and the tree without a net above them.
#![tactic(auto)]

ghost use Rattle.std.specs.Prelude.{ℕ, List};
ghost use Rattle.pn_scan.specs.Reading.{HasRead};

use itoa::Buffer;
use pn_outside::limits::BYTES;
use pn_outside::{Source, StdSink, StdSource, put_text};
use pn_scan::Scanner;
use pn_tree::{Kid, Tree, View};
use std::process::ExitCode;

/// Feeds a scanner the input to its end, or to where a read or the scanner fails.
fn feed_all<S: Source>(scanner: &mut Scanner, source: &mut S)
    requires { (b : List ℕ) × HasRead scanner.old b }
    ensures { (b : List ℕ) × HasRead scanner.new b }
{
    let mut buffer = [0; 4096];
    for _ in 0..=BYTES {
        let Ok(size) = source.read(&mut buffer) else {
            return;
        };
        if size == 0 {
            return;
        }
        if scanner.feed(&buffer[..size]).is_err() {
            return;
        }
    }
}

/// How many elements an element has, with itself. The recursion goes by the depth of elements,
/// which is at most 256.
fn elements(view: View<'_>) -> u64 {
    let mut count = 1_u64;
    for i in 0..view.kid_count() {
        if let Kid::Element(kid) = view.kid(i) {
            count = count.saturating_add(elements(kid));
        }
    }
    count
}

/// Prints how many elements a tree has.
fn print(rt: &HostRuntime, tree: &Tree) -> ExitCode {
    let mut out = StdSink::new(rt.stdout());
    let mut digits = Buffer::new();
    match put_text(&mut out, digits.format(elements(tree.root()))) {
        Ok(()) => ExitCode::SUCCESS,
        Err(_) => ExitCode::FAILURE,
    }
}

fn main(rt: HostRuntime) -> ExitCode {
    let mut scanner = Scanner::new(rt.alloc());
    let mut source = StdSource::new(rt.stdin());
    feed_all(&mut scanner, &mut source);
    match scanner.finish() {
        Ok(tree) => print(&rt, &tree),
        Err(_) => ExitCode::FAILURE,
    }
}
