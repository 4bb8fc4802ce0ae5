//! The scanner.

ghost use Rattle.std.specs.Prelude.{◌≡◌, ◌⊎◌, ◌<◌, ◌≤◌, ◌++◌, ◌∷◌, ℕ, true, List, [], length, take, None, Some, IfOk, MatchResult};
ghost use Rattle.pn_markup.specs.Document.{IsDocument, IsFront};
ghost use Rattle.pn_markup.specs.Offsets.{HasRisingOffsets};
ghost use Rattle.pn_scan.specs.Nestings.{nesting_of, inner_of, IsWhere, Belongs};
ghost use Rattle.pn_scan.specs.Contexts.{state_of, Admits};
ghost use Rattle.pn_scan.specs.State.{Nesting};
ghost use Rattle.pn_scan.specs.Reading.{IsReading, IsBroken, IsTooLong, IsOnlyFront, IsMemory, HasReadTo, HasRead, EndsAt, answer_of, fault_of};

use crate::advance::advance;
use crate::context::{Brackets, Context, Kept};
use crate::open_tree::{OpenTree, Where};
use crate::ordinary::take_ordinary;
use pn_outside::limits::BYTES;
use pn_tree::Tree;
use pn_utf8::Open;
use std::alloc::{AllocError, Global};
use thiserror::Error;

/// Why a scanner has no tree.
#[derive(Debug, Clone, Copy, Error)]
pub enum ScanFault {
    /// There was no memory.
    #[error("out of memory")]
    Memory(AllocError),
    /// The bytes up to this offset begin a document, and those up to the next don't, or there
    /// are none.
    #[error("no document goes on at byte {0}")]
    Broken(u64),
    /// There are more bytes than the limit, and as many as that begin a document.
    #[error("too long")]
    TooLong,
}

/// Reads a document from bytes in pieces, in one pass, and builds its tree on the way.
///
/// Time is in proportion to the bytes. So is memory, for every input, with 50 bytes for each byte that
/// was read at most. Texts and elements in turns take most: `x<b/>` fills 82 bytes of the tables of
/// `Builder` with 5, its two kids twice, which is 17 for each, and the room in a table and the table
/// from before while it grows make three times that. Other documents take less: a plain net 3 bytes
/// for each of its own, one long value 2.
#[derive(Drop)]
pub struct Scanner {
    alloc: Global,
    tree: OpenTree,
    kept: Kept,
    context: Context,
    opened: Open,
    count: u64,
    fault: Option<ScanFault>,
}

/// Whether a document ends here.
fn is_at_end(context: Context, nesting: Where, opened: Open) -> bool
    ensures behind { result ≡ true → nesting ≡ Where.Behind }
    ensures ends { (p : Nesting) (k : Kept) → IsWhere nesting p → EndsAt result p k context opened }
{
    match context {
        Context::Between => matches!(nesting, Where::Behind) && matches!(opened, Open::Nothing),
        _ => false,
    }
}

/// The front of a piece for which there is room.
fn front_of(piece: &[u8], room: u64) -> &[u8]
    requires { room ≤ BYTES }
    ensures { result.now ≡ take room piece.now }
{
    if piece.len() as u64 <= room {
        return piece;
    }
    &piece[..room as usize]
}

/// Begins a run where what is under way stands between two pieces within an element.
fn begin_run(tree: &OpenTree, kept: &mut Kept, context: &mut Context)
    requires { Belongs tree.now }
    ensures state { state_of (nesting_of tree.now) kept.new context.new ≡ state_of (nesting_of tree.now) kept.old context.old }
    ensures fits { Admits (nesting_of tree.now) context.old → Admits (nesting_of tree.now) context.new }
{
    if matches!(*context, Context::Between) && matches!(tree.nesting(), Where::Within) {
        kept.text.clear();
        *context = Context::Run {
            brackets: Brackets::Zero,
            cr: false,
        };
    }
}

impl Scanner {
    /// A scanner that was fed nothing yet. Takes no memory.
    pub fn new(alloc: Global) -> Scanner
        ensures read { HasRead result [] }
        ensures fault { fault_of result ≡ None }
    {
        Scanner {
            alloc,
            tree: OpenTree::new(alloc),
            kept: Kept::new(alloc),
            context: Context::Start,
            opened: Open::Nothing,
            count: 0,
            fault: None,
        }
    }

    /// Takes a byte; answers the fault that it makes.
    fn read(&mut self, byte: u8) -> Option<ScanFault>
        requires { (b : List ℕ) × IsReading self.old.tree self.old.kept self.old.context self.old.opened self.old.count b }
        ensures { (b : List ℕ) → IsReading self.old.tree self.old.kept self.old.context self.old.opened self.old.count b
            → HasReadTo result self.new.tree self.new.kept self.new.context self.new.opened self.new.count (b ++ byte ∷ []) }
    {
        if self.count == BYTES {
            return Some(ScanFault::TooLong);
        }
        let Some(opened) = self.opened.next(byte) else {
            return Some(ScanFault::Broken(self.count));
        };
        match advance(
            self.alloc,
            &mut self.tree,
            &mut self.kept,
            self.context,
            self.count,
            byte,
        ) {
            Ok(Some(context)) => {
                self.context = context;
                self.opened = opened;
                self.count += 1;
                None
            }
            Ok(None) => Some(ScanFault::Broken(self.count)),
            Err(error) => Some(ScanFault::Memory(error)),
        }
    }

    /// Takes the bytes at the front of a piece that stand for themselves here; answers how many.
    fn read_ordinary(&mut self, piece: &[u8]) -> Result<usize, AllocError>
        requires { (b : List ℕ) × IsReading self.old.tree self.old.kept self.old.context self.old.opened self.old.count b }
        ensures within { IfOk result (λ n. n ≤ length piece.now) }
        ensures read { IfOk result (λ n. (b : List ℕ) → IsReading self.old.tree self.old.kept self.old.context self.old.opened self.old.count b
            → IsReading self.new.tree self.new.kept self.new.context self.new.opened self.new.count (b ++ take n piece.now)) }
        ensures fault { fault_of self.new ≡ fault_of self.old }
    {
        let Open::Nothing = self.opened else {
            return Ok(0);
        };
        begin_run(&self.tree, &mut self.kept, &mut self.context);
        let front = front_of(piece, BYTES - self.count);
        let ordinary = take_ordinary(&mut self.kept, self.context, front)?;
        self.count += ordinary as u64;
        Ok(ordinary)
    }

    /// Takes the bytes at the front of a piece that are due of the name of an end tag; answers how
    /// many.
    fn read_name(&mut self, piece: &[u8]) -> usize
        requires { (b : List ℕ) × IsReading self.old.tree self.old.kept self.old.context self.old.opened self.old.count b }
        ensures within { result ≤ length piece.now }
        ensures read { (b : List ℕ) → IsReading self.old.tree self.old.kept self.old.context self.old.opened self.old.count b
            → IsReading self.new.tree self.new.kept self.new.context self.new.opened self.new.count (b ++ take result piece.now) }
        ensures fault { fault_of self.new ≡ fault_of self.old }
    {
        let Open::Nothing = self.opened else {
            return 0;
        };
        let Context::EndName { read } = self.context else {
            return 0;
        };
        let size = self
            .tree
            .name_front(read, front_of(piece, BYTES - self.count));
        self.context = Context::EndName { read: read + size };
        self.count += size as u64;
        size
    }

    /// Takes the bytes at the front of a piece that stand for themselves here, where no fault was
    /// found yet; answers how many.
    fn take_ordinary(&mut self, piece: &[u8]) -> usize
        requires { (b : List ℕ) × HasRead self.old b }
        ensures within { result ≤ length piece.now }
        ensures read { (b : List ℕ) → HasRead self.old b → HasRead self.new (b ++ take result piece.now) }
        ensures again { (f : ScanFault) → fault_of self.old ≡ Some f → fault_of self.new ≡ Some f }
    {
        if self.fault.is_some() {
            return 0;
        }
        match self.read_ordinary(piece) {
            Ok(0) => self.read_name(piece),
            Ok(ordinary) => ordinary,
            Err(error) => {
                self.fault = Some(ScanFault::Memory(error));
                0
            }
        }
    }

    /// Takes a byte, where no fault was found yet.
    fn take(&mut self, byte: u8)
        requires { (b : List ℕ) × HasRead self.old b }
        ensures read { (b : List ℕ) → HasRead self.old b → HasRead self.new (b ++ byte ∷ []) }
        ensures again { (f : ScanFault) → fault_of self.old ≡ Some f → fault_of self.new ≡ Some f }
    {
        match self.fault {
            Some(_) => {}
            None => self.fault = self.read(byte),
        }
    }

    /// Takes bytes at the front of a piece; answers how many: those that stand for themselves here, and
    /// the one behind them.
    fn take_front(&mut self, piece: &[u8]) -> usize
        requires read { (b : List ℕ) × HasRead self.old b }
        requires some { 0 < length piece.now }
        ensures some { 0 < result }
        ensures within { result ≤ length piece.now }
        ensures read { (b : List ℕ) → HasRead self.old b → HasRead self.new (b ++ take result piece.now) }
        ensures again { (f : ScanFault) → fault_of self.old ≡ Some f → fault_of self.new ≡ Some f }
    {
        let ordinary = self.take_ordinary(piece);
        if ordinary == piece.len() {
            return ordinary;
        }
        self.take(piece[ordinary]);
        ordinary + 1
    }

    /// The fault that was found, if any.
    fn answer(&self) -> Result<(), ScanFault>
        ensures { result ≡ answer_of (fault_of self.now) }
    {
        match self.fault {
            None => Ok(()),
            Some(fault) => Err(fault),
        }
    }

    /// Reads a piece. Where the break of all bytes so far comes before their end and before the
    /// limit, `Broken` says it; `TooLong` where there are more bytes than the limit, and as many
    /// as that begin a document. A fault is answered again by each later call.
    pub fn feed(&mut self, piece: &[u8]) -> Result<(), ScanFault>
        requires { (b : List ℕ) × HasRead self.old b }
        ensures read { (b : List ℕ) → HasRead self.old b → HasRead self.new (b ++ piece.now) }
        ensures again { (f : ScanFault) → fault_of self.old ≡ Some f → fault_of self.new ≡ Some f }
        ensures answer { result ≡ answer_of (fault_of self.new) }
        ensures goes { (b : List ℕ) → HasRead self.new b → fault_of self.new ≡ None → (length b ≤ BYTES) × IsFront b }
        ensures broken { (b : List ℕ) (k : ℕ) → HasRead self.new b → result ≡ Err (ScanFault.Broken k) → IsBroken b k }
        ensures breaks { (b : List ℕ) (k : ℕ) → HasRead self.new b → IsBroken b k → (result ≡ Err (ScanFault.Broken k)) ⊎ IsMemory result }
        ensures too_long { (b : List ℕ) → HasRead self.new b → result ≡ Err ScanFault.TooLong → IsTooLong b }
        ensures longer { (b : List ℕ) → HasRead self.new b → IsTooLong b → (result ≡ Err ScanFault.TooLong) ⊎ IsMemory result }
    {
        let mut at = 0;
        while at < piece.len() {
            at += self.take_front(&piece[at..]);
        }
        self.answer()
    }

    /// Whether all bytes so far are a document.
    fn is_whole(&self) -> bool
        requires { Belongs self.now.tree }
        ensures behind { result ≡ true → IsWhere Where.Behind (nesting_of self.now.tree) }
        ensures ends { EndsAt result (nesting_of self.now.tree) self.now.kept self.now.context self.now.opened }
    {
        is_at_end(self.context, self.tree.nesting(), self.opened)
    }

    /// The tree, behind its root.
    fn into_tree(self) -> Tree
        requires belongs { Belongs self.tree }
        requires behind { IsWhere Where.Behind (nesting_of self.tree) }
        ensures { result ≡ inner_of (nesting_of self.tree) }
    {
        self.tree.finish()
    }

    /// The end, where no fault was found.
    fn end(self) -> Result<Tree, ScanFault>
        requires { (b : List ℕ) × IsReading self.tree self.kept self.context self.opened self.count b }
        ensures ends { (b : List ℕ) → IsReading self.tree self.kept self.context self.opened self.count b
            → MatchResult result (λ t. IsDocument t b) (λ f. (f ≡ ScanFault.Broken (length b)) × IsOnlyFront b) }
        ensures ordered { IfOk result HasRisingOffsets }
    {
        if self.is_whole() {
            return Ok(self.into_tree());
        }
        let count = self.count;
        drop(self);
        Err(ScanFault::Broken(count))
    }

    /// The tree that all bytes spell, or `Broken` with their number where they begin a document
    /// and are none. A fault of `feed` is answered again. Takes no memory, so where `feed` answered
    /// no fault this never answers `Memory`.
    pub fn finish(self) -> Result<Tree, ScanFault>
        requires { (b : List ℕ) × HasRead self b }
        ensures again { (f : ScanFault) → fault_of self ≡ Some f → result ≡ Err f }
        ensures ends { (b : List ℕ) → fault_of self ≡ None → HasRead self b
            → MatchResult result (λ t. IsDocument t b) (λ f. (f ≡ ScanFault.Broken (length b)) × IsOnlyFront b) }
        ensures ordered { IfOk result HasRisingOffsets }
        ensures no_memory { fault_of self ≡ None → IsMemory result → ⊥ }
    {
        match self.fault {
            Some(fault) => {
                drop(self);
                Err(fault)
            }
            None => self.end(),
        }
    }
}
