// The text of a list that comes in pieces.
ghost use Rattle.std.specs.Prelude.{◌≡◌, ◌<◌, ◌≤◌, ◌^◌, ◌+◌, ◌++◌, [], ℕ, List};
ghost use Rattle.std.specs.Prelude.{length, take, Ok, OnOk, IfOk, IfErr};
ghost use Rattle.certificate.specs.Spelling.{Plain, AreSpelt, Spells, views};
ghost use Rattle.certificate.specs.Reading.{Gives, list_of};
ghost use Rattle.certificate.specs.FirstBad.{IsFault};
ghost use Rattle.certificate.specs.Feeding.{EndsLine, MayFollow, ArePairedIn, IsPairedStage};
ghost use Rattle.certificate.specs.Feeding.{stage_on};
ghost use Rattle.certificate.specs.Feeds.{gives, lines, IsOfText};

use crate::fault::CertFault;
use crate::notes::Certificate;
use crate::reading::{read_end, read_lines};
use crate::stages::Stage;
use crate::text::Text;
use ports::Memory;
use std::alloc::Global;
use std::marker::Model;
use std::mem::replace;

/// A list of certificates whose text comes in pieces.
#[derive(Drop)]
pub struct CertFeed {
    alloc: Global,
    stage: Stage,
    // The number of the line that comes next.
    line: u32,
    // The front of that line.
    begun: Vec<u8>,
}

impl Model for CertFeed {
    ghost use Rattle.std.specs.Prelude.{◌+◌, ◌^◌, ◌<◌, length};
    ghost use Rattle.certificate.specs.Feeding.{IsPairedStage};
    ghost use Rattle.certificate.specs.Feeds.{Feed};

    ghost Value = { Feed };

    ghost view = { λ feed. record {
      stage = feed.stage;
      line = feed.line;
      begun = feed.begun.items;
    } };

    ghost invariant = { λ feed. IsPairedStage feed.stage
        × (feed.line + length feed.begun.items < 2 ^ 32) };
}

// How many bytes at the front are whole lines: they end with the last LF.
fn lines_len(piece: &[u8]) -> usize
    ensures within { result ≤ length piece.now }
    ensures ends { EndsLine (take result piece.now) }
{
    let mut length = piece.len();
    while length > 0 && piece[length - 1] != b'\n' {
        length -= 1;
    }
    length
}

// A fault of the text itself.
fn text_fault(fault: CertFault) -> Result<CertFault, Memory>
    ensures same { IfOk result (λ e. e ≡ fault) }
    ensures text { IfOk result IsOfText }
{
    match fault {
        CertFault::Line(_) => Ok(fault),
        CertFault::Number(_) => Ok(fault),
        CertFault::Short(_) => Ok(fault),
        CertFault::Memory => Err(Memory),
    }
}

// What was read after these lines, and the number of the line that comes next.
fn stage_after(alloc: Global, stage: Stage, bytes: &[u8], line: u32) -> Result<(Stage, u32), Memory>
    requires few { line + length bytes.now < 2 ^ 32 }
    requires paired { IsPairedStage stage }
    ensures on { IfOk result (λ x. (rest : List ℕ) → MayFollow bytes.now rest
        → stage_on stage (record { rest = bytes.now ++ rest; line = line })
        ≡ stage_on x.0 (record { rest = rest; line = x.1 })) }
    ensures lines { IfOk result (λ x. x.1 ≤ line + length bytes.now) }
    ensures paired { IfOk result (λ x. IsPairedStage x.0) }
{
    let text = Text { rest: bytes, line };
    match read_lines(alloc, stage, text) {
        Ok(after) => Ok(after),
        Err(fault) => Ok((Stage::Failed(text_fault(fault)?), line)),
    }
}

impl CertFeed {
    /// Before the first byte of a text.
    pub fn new(alloc: Global) -> CertFeed
        ensures gives { (bytes : List ℕ) → gives result bytes ≡ list_of bytes }
        ensures lines { lines result ≡ 1 }
    {
        CertFeed {
            alloc,
            stage: Stage::Start,
            line: 1,
            begun: Vec::new(alloc),
        }
    }

    // Takes whole lines.
    fn take_lines(&mut self, bytes: &[u8]) -> Result<(), Memory>
        requires ends { EndsLine bytes.now }
        requires few { lines self.old + length bytes.now < 2 ^ 32 }
        ensures gives { OnOk result
            ((rest : List ℕ) → gives self.old (bytes.now ++ rest) ≡ gives self.new rest) }
        ensures lines { OnOk result (lines self.new ≤ lines self.old + length bytes.now) }
    {
        if bytes.is_empty() {
            return Ok(());
        }
        // Moved out while its lines are read; its room is put back.
        let mut begun = replace(&mut self.begun, Vec::new(self.alloc));
        begun.extend_from_slice(bytes)?;
        let stage = replace(&mut self.stage, Stage::Start);
        let (stage, line) = stage_after(self.alloc, stage, &begun, self.line)?;
        begun.clear();
        self.stage = stage;
        self.line = line;
        self.begun = begun;
        Ok(())
    }

    /// Takes a piece of the text.
    ///
    /// Cost: time in proportion to the bytes; memory for what is read of the list, and for a piece
    /// and the front of a line before it.
    pub fn take(&mut self, piece: &[u8]) -> Result<(), Memory>
        requires few { lines self.old + length piece.now < 2 ^ 32 }
        // Whatever follows the piece, it spells the same.
        ensures gives { OnOk result
            ((rest : List ℕ) → gives self.old (piece.now ++ rest) ≡ gives self.new rest) }
        ensures lines { OnOk result (lines self.new ≤ lines self.old + length piece.now) }
    {
        let length = lines_len(piece);
        self.take_lines(&piece[..length])?;
        self.begun.extend_from_slice(&piece[length..])?;
        Ok(())
    }

    /// The text ends here: the list of certificates that it spells in version 1 or 2, or the first
    /// bad line.
    pub fn finish(self) -> Result<Vec<Certificate>, CertFault>
        // What is read is spelt so.
        ensures found { (bytes : List ℕ) → list_of bytes ≡ gives self []
            → IfOk result (λ list. AreSpelt (views list.items) × Spells bytes (views list.items)) }
        // What is spelt so is read, unless memory runs out.
        ensures only { (bytes : List ℕ) → list_of bytes ≡ gives self []
            → (list : List Plain) → AreSpelt list → Spells bytes list
            → Gives (λ list. views list.items) result (Ok list) }
        // The line of a fault is the first bad one.
        ensures first_bad { (bytes : List ℕ) → list_of bytes ≡ gives self []
            → IfErr result (IsFault bytes) }
        ensures exact { Gives (λ list. views list.items) result (gives self []) }
        ensures paired { IfOk result (λ list. ArePairedIn list.items) }
    {
        let stage = self.stage;
        let begun = self.begun;
        let text = Text {
            rest: &begun,
            line: self.line,
        };
        read_end(self.alloc, stage, text)
    }
}
