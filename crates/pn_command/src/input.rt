//! Reading an input by the scanner.

ghost use Rattle.std.specs.Prelude.{◌≡◌, ◌≢◌, ◌≤◌, ◌⊎◌, ℕ, List, [], length, Err, IfErr, IfOk, IfSome, None, OnOk, Option};
ghost use Rattle.std.specs.Io.KnownBytes.{IsAtEnd};
ghost use Rattle.pn_outside.specs.Cause.{Rose};
ghost use Rattle.pn_scan.specs.Reading.{HasRead, fault_of};
ghost use Rattle.pn_command.specs.Reading.{HaltSays, IsFed, IsReadToEnd, IsScanned, Stopped, TakesBegun, ReadsNoFurther};

use pn_outside::Source;
use pn_outside::limits::BYTES;
use pn_scan::{ScanFault, Scanner};
use pn_tree::Tree;
use std::alloc::Global;

/// Why there is nothing to answer.
#[derive(Clone, Copy)]
pub(crate) enum Stop {
    Fault,
    Memory,
}

/// What an input is, by its markup.
#[derive(Drop)]
pub(crate) enum Scanned {
    Document(Tree),
    Broken(u64),
    TooLong,
}

/// Why an input is not read to its end.
#[derive(Drop)]
enum Halt {
    Source,
    Scanner(ScanFault),
}

/// What the scanner's fault says of the input.
fn stopped(fault: ScanFault) -> Result<Scanned, Stop>
    ensures says { Stopped fault result }
    ensures no_fault { result ≢ Err Stop.Fault }
    ensures no_end { IfOk result (λ s. IsReadToEnd s → ⊥) }
{
    match fault {
        ScanFault::Memory(_) => Err(Stop::Memory),
        ScanFault::Broken(at) => Ok(Scanned::Broken(at)),
        ScanFault::TooLong => Ok(Scanned::TooLong),
    }
}

/// What it says of the input that it was not read to its end.
fn halted(halt: Halt) -> Result<Scanned, Stop>
    ensures says { (old : Option (List ℕ)) → IfSome old (HaltSays halt) → IfOk result (λ s. IfSome old (λ b. IsScanned b s)) }
    ensures fault { result ≡ Err Stop.Fault → halt ≡ Halt.Source }
    ensures source { halt ≡ Halt.Source → result ≡ Err Stop.Fault }
    ensures no_end { IfOk result (λ s. IsReadToEnd s → ⊥) }
{
    match halt {
        Halt::Source => Err(Stop::Fault),
        Halt::Scanner(fault) => stopped(fault),
    }
}

/// Drops a scanner, so that no exit of its owner does.
fn discard(_scanner: Scanner) {}

/// What an input is of which the scanner was fed all.
fn finished(scanner: Scanner) -> Result<Scanned, Stop>
    requires fed { (b : List ℕ) × HasRead scanner b }
    requires no_fault { fault_of scanner ≡ None }
    ensures scanned { (b : List ℕ) → HasRead scanner b → length b ≤ BYTES → IfOk result (IsScanned b) }
    ensures no_fault { result ≢ Err Stop.Fault }
{
    match scanner.finish() {
        Ok(tree) => Ok(Scanned::Document(tree)),
        Err(fault) => stopped(fault),
    }
}

/// Feeds a new scanner the input to its end, or to the piece behind which no document goes on or
/// which goes past the limit.
fn feed_all<S: Source>(scanner: &mut Scanner, source: &mut S) -> Result<(), Halt>
    requires fed { HasRead scanner.old [] }
    requires no_fault { fault_of scanner.old ≡ None }
    ensures fed { OnOk result ((count : ℕ) × IsFed scanner.new (S.left source.old) (S.left source.new) count) }
    ensures end { OnOk result (IsAtEnd (S.left source.new)) }
    ensures says { IfErr result (λ h. IfSome (S.left source.old) (HaltSays h)) }
    ensures no_further { ReadsNoFurther (S.left source.old) (S.left source.new) }
    ensures at_fault { result ≡ Err Halt.Source → TakesBegun (S.left source.old) (S.left source.new) }
    ensures later { S.faults source.old ≤ S.faults source.new }
    ensures cause { result ≡ Err Halt.Source → Rose (S.faults source.old) (S.faults source.new) }
    ensures told { (result ≡ Err Halt.Source) ⊎ (S.faults source.new ≡ S.faults source.old) }
{
    let mut buffer = [0; 4096];
    let mut count = 0;
    while count <= BYTES {
        match source.read(&mut buffer) {
            Ok(0) => return Ok(()),
            Ok(size) => match scanner.feed(&buffer[..size]) {
                Ok(()) => count += size as u64,
                Err(fault) => return Err(Halt::Scanner(fault)),
            },
            Err(_) => return Err(Halt::Source),
        }
    }
    unreachable!()
}

/// Reads to the end of the input, or to the piece behind which no document goes on or which goes
/// past the limit.
pub(crate) fn scan_all<S: Source>(alloc: Global, source: &mut S) -> Result<Scanned, Stop>
    ensures scanned { IfOk result (λ s. IfSome (S.left source.old) (λ b. IsScanned b s)) }
    ensures end { IfOk result (λ s. IsReadToEnd s → IsAtEnd (S.left source.new)) }
    ensures no_further { ReadsNoFurther (S.left source.old) (S.left source.new) }
    ensures at_fault { result ≡ Err Stop.Fault → TakesBegun (S.left source.old) (S.left source.new) }
    ensures later { S.faults source.old ≤ S.faults source.new }
    ensures cause { result ≡ Err Stop.Fault → Rose (S.faults source.old) (S.faults source.new) }
    ensures told { (result ≡ Err Stop.Fault) ⊎ (S.faults source.new ≡ S.faults source.old) }
{
    let mut scanner = Scanner::new(alloc);
    match feed_all(&mut scanner, source) {
        Ok(()) => finished(scanner),
        Err(halt) => {
            discard(scanner);
            halted(halt)
        }
    }
}
