//! The lines that the program writes to the standard error, where it does not give what was asked
//! for.

ghost use Rattle.std.specs.Prelude.{◌≡◌, ◌++◌, codes, OnOk};
ghost use Rattle.pn_outside.specs.Cause.{CountsFault, HasCause};
ghost use Rattle.pn_outside.specs.Taking.{Puts};
ghost use Rattle.pn_outside.specs.declared.limits.TheConstants.{BYTES};
ghost use Rattle.pn_report.specs.Lines.{count_text};
ghost use Rattle.pn_command.specs.Lines.{IsLine, bad_mode_line, limit_line, line_text, named_line, not_a_mode_line, not_enabled_line, refusal_line, shortage_text, status_of, too_often_line};

use crate::Status;
use pn_faults::Fault;
use pn_lines::{put_count, put_escaped};
use pn_outside::limits::BYTES;
use pn_outside::{Failed, Sink, put_all, put_text};
use pn_report::put_fault;
use pn_text::Text;
use sqlite_items::Items;

const USAGE: &str =
    "pnml: usage: check, flatten, step MODE (one or more), modes T, unfold, trial N\n";

/// A limit that is passed.
#[derive(Drop)]
pub(crate) enum Limit {
    /// The input is too long.
    Input,
    /// The output would be too long.
    Output,
    /// A transition has so many assignments of values to its variables.
    Assignments(u128),
    /// The mode or the token of this text comes too often.
    Count(Items<u8>),
}

/// Why the input is refused.
#[derive(Drop)]
pub(crate) enum Refusal {
    /// It is no document, with its break.
    Broken(u64),
    /// It is a document with a fault.
    Fault(Fault),
    /// No transition of its net has this id.
    UnknownTransition(Text),
    /// The variable of this id has an infinite sort.
    InfiniteSort(Text),
    /// The word of this number, from 1, is no mode word, and so long is its longest front with which one
    /// begins.
    BadMode(u64, u64),
    /// The transition of the word of this number, from 1, with its values is no mode.
    NotAMode(u64),
    /// The token of this text is taken more often than it is there: how often, and how often it is there.
    NotEnabled(Items<u8>, u64, u64),
}

/// A line on the standard error.
#[derive(Drop)]
pub(crate) enum Line {
    /// The words ask for nothing.
    Usage,
    Limit(Limit),
    Refusal(Refusal),
}

impl Line {
    /// How a call with this line ends.
    pub(crate) fn status(&self) -> Status
        ensures status { result ≡ status_of self.now }
        ensures line { IsLine result }
    {
        match self {
            Line::Usage => Status::Usage,
            Line::Limit(_) => Status::Limit,
            Line::Refusal(_) => Status::Refused,
        }
    }
}

/// Puts the line for what is longer than it may be.
fn put_longer<K: Sink>(sink: &mut K, label: &str) -> Result<(), Failed>
    ensures puts { Puts K.taken K.number result sink.old sink.new (count_text label.now BYTES ++ codes " bytes\n") }
    ensures cause { HasCause (K.faults sink.old) (K.faults sink.new) result }
    ensures counted { CountsFault (K.faults sink.old) (K.faults sink.new) result }
{
    put_count(sink, label, BYTES)?;
    put_text(sink, " bytes\n")
}

/// Puts the line for a limit that is passed.
fn put_limit<K: Sink>(sink: &mut K, limit: &Limit) -> Result<(), Failed>
    ensures puts { Puts K.taken K.number result sink.old sink.new (limit_line limit.now) }
    ensures cause { HasCause (K.faults sink.old) (K.faults sink.new) result }
    ensures counted { CountsFault (K.faults sink.old) (K.faults sink.new) result }
{
    match limit {
        Limit::Input => put_longer(sink, "pnml: limit: input longer than "),
        Limit::Output => put_longer(sink, "pnml: limit: output longer than "),
        Limit::Assignments(count) => put_assignments(sink, *count),
        Limit::Count(text) => put_too_often(sink, text.as_slice()),
    }
}

/// Puts the line for more assignments than are listed.
fn put_assignments<K: Sink>(sink: &mut K, count: u128) -> Result<(), Failed>
    ensures puts { Puts K.taken K.number result sink.old sink.new (count_text (codes "pnml: limit: ") count ++ codes " assignments\n") }
    ensures cause { HasCause (K.faults sink.old) (K.faults sink.new) result }
    ensures counted { CountsFault (K.faults sink.old) (K.faults sink.new) result }
{
    put_count(sink, "pnml: limit: ", count)?;
    put_text(sink, " assignments\n")
}

/// Puts the line for an input that is no document, with its break.
fn put_broken<K: Sink>(sink: &mut K, at: u64) -> Result<(), Failed>
    ensures puts { Puts K.taken K.number result sink.old sink.new (count_text (codes "pnml: byte ") at ++ codes ": broken\n") }
    ensures cause { HasCause (K.faults sink.old) (K.faults sink.new) result }
    ensures counted { CountsFault (K.faults sink.old) (K.faults sink.new) result }
{
    put_count(sink, "pnml: byte ", at)?;
    put_text(sink, ": broken\n")
}

/// Puts the line for an input that is refused.
fn put_refusal<K: Sink>(sink: &mut K, refusal: &Refusal) -> Result<(), Failed>
    ensures puts { Puts K.taken K.number result sink.old sink.new (refusal_line refusal.now) }
    ensures cause { HasCause (K.faults sink.old) (K.faults sink.new) result }
    ensures counted { CountsFault (K.faults sink.old) (K.faults sink.new) result }
{
    match refusal {
        Refusal::Broken(at) => put_broken(sink, *at),
        Refusal::Fault(fault) => put_fault(fault, sink),
        Refusal::UnknownTransition(id) => {
            put_named(sink, "pnml: unknown transition: ", id.as_str())
        }
        Refusal::InfiniteSort(id) => put_named(sink, "pnml: infinite sort: ", id.as_str()),
        Refusal::BadMode(word, at) => put_bad_mode(sink, *word, *at),
        Refusal::NotAMode(word) => put_not_a_mode(sink, *word),
        Refusal::NotEnabled(token, need, has) => {
            put_not_enabled(sink, token.as_slice(), *need, *has)
        }
    }
}

/// Puts the line for a word that is no mode word, with its number and the length of its longest front
/// with which one begins.
fn put_bad_mode<K: Sink>(sink: &mut K, word: u64, at: u64) -> Result<(), Failed>
    ensures puts { Puts K.taken K.number result sink.old sink.new (bad_mode_line word at) }
    ensures cause { HasCause (K.faults sink.old) (K.faults sink.new) result }
    ensures counted { CountsFault (K.faults sink.old) (K.faults sink.new) result }
{
    put_count(sink, "pnml: word ", word)?;
    put_count(sink, ": bad mode at byte ", at)?;
    put_text(sink, "\n")
}

/// Puts the line for a word whose transition with its values is no mode, with its number.
fn put_not_a_mode<K: Sink>(sink: &mut K, word: u64) -> Result<(), Failed>
    ensures puts { Puts K.taken K.number result sink.old sink.new (not_a_mode_line word) }
    ensures cause { HasCause (K.faults sink.old) (K.faults sink.new) result }
    ensures counted { CountsFault (K.faults sink.old) (K.faults sink.new) result }
{
    put_count(sink, "pnml: word ", word)?;
    put_text(sink, ": not a mode\n")
}

/// Puts the line for a token that is taken more often than it is there.
fn put_not_enabled<K: Sink>(sink: &mut K, token: &[u8], need: u64, has: u64) -> Result<(), Failed>
    ensures puts { Puts K.taken K.number result sink.old sink.new (not_enabled_line token.now need has) }
    ensures cause { HasCause (K.faults sink.old) (K.faults sink.new) result }
    ensures counted { CountsFault (K.faults sink.old) (K.faults sink.new) result }
{
    put_text(sink, "pnml: not enabled: ")?;
    put_all(sink, token)?;
    put_shortage(sink, need, has)
}

/// Puts how often a token is taken, and how often it is there, and a line end.
fn put_shortage<K: Sink>(sink: &mut K, need: u64, has: u64) -> Result<(), Failed>
    ensures puts { Puts K.taken K.number result sink.old sink.new (shortage_text need has) }
    ensures cause { HasCause (K.faults sink.old) (K.faults sink.new) result }
    ensures counted { CountsFault (K.faults sink.old) (K.faults sink.new) result }
{
    put_count(sink, " needs ", need)?;
    put_count(sink, " has ", has)?;
    put_text(sink, "\n")
}

/// Puts the line for a mode or a token of this text that comes too often.
fn put_too_often<K: Sink>(sink: &mut K, text: &[u8]) -> Result<(), Failed>
    ensures puts { Puts K.taken K.number result sink.old sink.new (too_often_line text.now) }
    ensures cause { HasCause (K.faults sink.old) (K.faults sink.new) result }
    ensures counted { CountsFault (K.faults sink.old) (K.faults sink.new) result }
{
    put_text(sink, "pnml: limit: count of ")?;
    put_all(sink, text)?;
    put_text(sink, "\n")
}

/// Puts a line that ends with an id.
fn put_named<K: Sink>(sink: &mut K, label: &str, id: &str) -> Result<(), Failed>
    ensures puts { Puts K.taken K.number result sink.old sink.new (named_line label.now id.now) }
    ensures cause { HasCause (K.faults sink.old) (K.faults sink.new) result }
    ensures counted { CountsFault (K.faults sink.old) (K.faults sink.new) result }
{
    put_text(sink, label)?;
    put_escaped(sink, id)?;
    put_text(sink, "\n")
}

/// Puts a line.
fn put_line<K: Sink>(sink: &mut K, line: &Line) -> Result<(), Failed>
    ensures puts { Puts K.taken K.number result sink.old sink.new (line_text line.now) }
    ensures cause { HasCause (K.faults sink.old) (K.faults sink.new) result }
    ensures counted { CountsFault (K.faults sink.old) (K.faults sink.new) result }
{
    match line {
        Line::Usage => put_text(sink, USAGE),
        Line::Limit(limit) => put_limit(sink, limit),
        Line::Refusal(refusal) => put_refusal(sink, refusal),
    }
}

/// Writes a line and passes it on.
pub(crate) fn write_line<K: Sink>(sink: &mut K, line: &Line) -> Result<(), Failed>
    ensures puts { Puts K.taken K.number result sink.old sink.new (line_text line.now) }
    ensures settled { OnOk result (K.settled sink.new) }
    ensures cause { HasCause (K.faults sink.old) (K.faults sink.new) result }
    ensures counted { CountsFault (K.faults sink.old) (K.faults sink.new) result }
{
    put_line(sink, line)?;
    sink.done()
}
