//! Writers of the standard library as sinks.

ghost use Rattle.std.specs.Prelude.{◌≡◌, ◌<◌, ◌≤◌, length, None, IfOk, IfErr};
ghost use Rattle.surge_outside.specs.Counts.{HasRisen};
ghost use Rattle.surge_outside.specs.Ends.{faults_after_call};

use crate::disk_files::TRIES;
use crate::sink::Sink;
use crate::trouble::Trouble;
use std::io::{ErrorKind, Write};
use std::marker::Model;

/// One write, tried again where a signal interrupts it. To write nothing of a piece that isn't empty is a failure.
fn write_some<W: Write>(writer: &mut W, piece: &[u8]) -> Result<usize, Trouble>
    ensures within { IfOk result (λ n. n ≤ length piece.now) }
    ensures some { IfOk result (λ n. 0 < length piece.now → 0 < n) }
    ensures error { IfErr result (λ trouble. trouble ≡ Trouble.Failed) }
{
    for _ in 0..TRIES {
        match writer.write(piece) {
            Ok(0) if !piece.is_empty() => return Err(Trouble::Failed),
            Ok(count) => return Ok(count),
            Err(error) => {
                if !matches!(error.kind(), ErrorKind::Interrupted) {
                    return Err(Trouble::Failed);
                }
            }
        }
    }
    Err(Trouble::Failed)
}

/// A sink over a writer that keeps nothing back, as standard output and standard error of the runtime do. It tells
/// nothing of what was written: that the bytes reach the writer is what these few lines are trusted for. Its count of
/// failures is of 64 bits and stands still at its end.
#[derive(Drop)]
pub struct StdSink<W> {
    writer: W,
    faults: u64,
}

impl<W> Model for StdSink<W> {
    ghost use Rattle.std.specs.Prelude.{ℕ};

    ghost Value = { ℕ };

    ghost view = { λ a. a.faults };
}

impl<W> StdSink<W> {
    /// A sink over this writer.
    pub fn new(writer: W) -> StdSink<W>
        ensures { result ≡ 0 }
    {
        StdSink { writer, faults: 0 }
    }
}

impl<W: Write> Sink for StdSink<W> {
    ghost written = { λ _. None };

    ghost faults = { λ faults. faults };

    /// [`Trouble::Failed`] is answered where the writer answers an error, and where it writes nothing of a piece that
    /// isn't empty. There is no other error.
    fn write(&mut self, piece: &[u8]) -> Result<usize, Trouble>
        ensures within { IfOk result (λ n. n ≤ length piece.now) }
        ensures some { IfOk result (λ n. 0 < length piece.now → 0 < n) }
        ensures faults { self.old ≤ self.new }
        ensures failed { result ≡ Err Trouble.Failed → HasRisen self.old self.new }
        ensures error { IfErr result (λ trouble. trouble ≡ Trouble.Failed) }
        ensures after { self.new ≡ faults_after_call result self.old }
    {
        let answer = write_some(&mut self.writer, piece);
        if answer.is_err() {
            self.faults = self.faults.saturating_add(1);
        }
        answer
    }
}
