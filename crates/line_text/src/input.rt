//! A text, read from an input piece by piece.
ghost use Rattle.std.specs.Prelude.{◌≡◌, ◌≢◌, ◌≤◌, ◌<◌, ◌+◌, ◌++◌, [], ℕ, List, Err, IfErr, IfOk, OnOk, length, take};
ghost use Rattle.std.specs.Io.KnownBytes.{Consumes, IsAtEnd, Keeps};
ghost use Rattle.outside.specs.Faults.{Rose};
ghost use Rattle.line_text.specs.Inputs.{HasRead};
ghost use Rattle.line_text.specs.declared.input.InputFault.TheVariants.{Read, Text};

use outside::{Failed, Source};

/// Why an input gave no text of its kind.
#[derive(Clone, Copy, Debug, PartialEq, Eq)]
pub enum InputFault<F> {
    /// What came is no such text, or could not be taken.
    Text(F),
    /// The input could not be read.
    Read,
}

/// What takes a text that comes in pieces.
pub trait TakesText {
    ghost use Rattle.std.specs.Prelude.{ℕ, List};

    /// Why no more of a text is taken.
    type Fault;

    /// This much of a text was taken, and more may come.
    ghost has_come: { Self → List ℕ → Type 0 };

    /// No more is taken of a text that begins so.
    ghost refuses: { List ℕ → Self.Fault → Type 0 };

    /// The most bytes that are taken at once.
    ghost portion: { Self → ℕ };

    /// How many bytes more may be taken.
    ghost room: { Self → ℕ };

    /// How many bytes are to be read at most before they are taken.
    fn portion(&self) -> usize
        requires { (text : List ℕ) × has_come self.now text }
        ensures value { result ≡ portion self.now }
        ensures some { 0 < result };

    /// Takes the next piece.
    fn take(&mut self, piece: &[u8]) -> Result<(), Self::Fault>
        requires come { (text : List ℕ) × has_come self.old text }
        requires fits { length piece.now ≤ portion self.old }
        ensures taken { OnOk result ((text : List ℕ) → has_come self.old text → has_come self.new (text ++ piece.now)) }
        ensures refused { IfErr result (λ fault. (text : List ℕ) → has_come self.old text → refuses (text ++ piece.now) fault) }
        ensures smaller { OnOk result (room self.new + length piece.now ≤ room self.old) };
}

/// Takes all bytes of an input, in pieces of at most as many as `piece` has. It reads while more may
/// come, and stops with the piece behind which no more is taken.
pub fn read_text<S: Source, T: TakesText>(
    source: &mut S,
    piece: &mut [u8],
    text: &mut T,
) -> Result<(), InputFault<T::Fault>>
    requires room { 0 < length piece.old }
    requires begun { T.has_come text.old [] }
    ensures whole { OnOk result (HasRead (S.left source.old) (S.left source.new) (T.has_come text.new)) }
    ensures end { OnOk result (IsAtEnd (S.left source.new)) }
    ensures refused { (fault : T.Fault) → result ≡ Err (Text fault) → HasRead (S.left source.old) (S.left source.new) (λ bytes. T.refuses bytes fault) }
    ensures prompt { result ≡ Err Read → HasRead (S.left source.old) (S.left source.new) (T.has_come text.new) }
    ensures beside { S.beside_reads source.new ≡ S.beside_reads source.old }
    ensures never_falls { S.read_faults source.old ≤ S.read_faults source.new }
    ensures fine { result ≢ Err Read → S.read_faults source.new ≡ S.read_faults source.old }
    ensures failed { result ≡ Err Read → Rose (S.read_faults source.old) (S.read_faults source.new) }
{
    'pieces: loop {
        let most = text.portion().min(piece.len());
        let Ok(count) = read_front(source, piece, most) else {
            return Err(InputFault::Read);
        };
        if count == 0 {
            return Ok(());
        }
        match text.take(&piece[..count]) {
            Ok(()) => {}
            Err(fault) => return Err(InputFault::Text(fault)),
        }
    }
}

/// Reads once, into the front of the piece; 0 says that the input ended.
fn read_front<S: Source>(source: &mut S, piece: &mut [u8], most: usize) -> Result<usize, Failed>
    requires some { 0 < most }
    requires fits { most ≤ length piece.old }
    ensures fits { IfOk result (λ count. count ≤ most) }
    ensures bytes { IfOk result (λ count. Consumes (S.left source.old) (S.left source.new) (take count piece.new)) }
    ensures end { IfOk result (λ count. count ≡ 0 → IsAtEnd (S.left source.new)) }
    ensures cut { IfErr result (λ _. Keeps (S.left source.old) (S.left source.new)) }
    ensures room { length piece.new ≡ length piece.old }
    ensures beside { S.beside_reads source.new ≡ S.beside_reads source.old }
    ensures never_falls { S.read_faults source.old ≤ S.read_faults source.new }
    ensures fine { OnOk result (S.read_faults source.new ≡ S.read_faults source.old) }
    ensures failed { IfErr result (λ _. Rose (S.read_faults source.old) (S.read_faults source.new)) }
{
    source.read(&mut piece[..most])
}
