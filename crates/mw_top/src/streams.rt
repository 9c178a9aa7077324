// A source is read to its end, and a text is written whole.
ghost use Rattle.std.specs.Prelude.{◌≡◌, ◌+◌, ◌<◌, ◌≤◌, ℕ, List, length, take, IfOk, OnOk, OnErr, IsErrOf};
ghost use Rattle.std.specs.Io.KnownBytes.{Appends, Consumes, IsAtEnd};
ghost use Rattle.mw_outside.specs.Causes.{Rose};
ghost use Rattle.mw_top.specs.declared.streams.ReadError.TheVariants.{Memory, Failed as SourceFailed};
ghost use Rattle.mw_top.specs.Moved.{Gave, Took};

use mw_outside::{Failed, Sink, Source};
use std::alloc::{AllocError, Global};

/// How many bytes a source may give.
pub const LIMIT: usize = 8_388_608;

/// Why a source wasn't read to its end.
#[derive(Clone, Copy, Debug, PartialEq, Eq)]
pub enum ReadError {
    Memory,
    Failed,
    TooLong,
}

impl From<AllocError> for ReadError {
    ghost from_gives = { λ _ e. e ≡ Memory };

    fn from(_: AllocError) -> Self {
        ReadError::Memory
    }
}

impl From<Failed> for ReadError {
    ghost from_gives = { λ _ e. e ≡ SourceFailed };

    fn from(_: Failed) -> Self {
        ReadError::Failed
    }
}

/// All that a source has.
#[tactic(auto, using(crate::proofs::Moving::consumes_more))]
pub fn read_to_end<S: Source>(alloc: Global, source: &mut S) -> Result<Vec<u8>, ReadError>
    ensures later { S.faults source.old ≤ S.faults source.new }
    // Never more than one byte past the limit is taken.
    ensures bounded { Gave (S.left source.old) (S.left source.new) (λ n. n ≤ LIMIT + 1) }
    ensures whole { IfOk result (λ bytes. Consumes (S.left source.old) (S.left source.new) bytes.items) }
    ensures end { OnOk result (IsAtEnd (S.left source.new)) }
    ensures short { IfOk result (λ bytes. length bytes.items ≤ LIMIT) }
    ensures failed { IsErrOf result ReadError.Failed → Rose (S.faults source.old) (S.faults source.new) }
    ensures failed_before { IsErrOf result ReadError.Failed → Gave (S.left source.old) (S.left source.new) (λ n. n ≤ LIMIT) }
    ensures memory { IsErrOf result ReadError.Memory → Gave (S.left source.old) (S.left source.new) (λ n. n ≤ LIMIT) }
    ensures too_long { IsErrOf result ReadError.TooLong → Gave (S.left source.old) (S.left source.new) (λ n. n ≡ LIMIT + 1) }
    ensures kept { (IsErrOf result ReadError.Failed → ⊥) → S.faults source.new ≡ S.faults source.old }
{
    let mut bytes = Vec::new(alloc);
    let mut buf = [0u8; 4096];
    loop {
        let room = (LIMIT + 1 - bytes.len()).min(buf.len());
        let count = source.read(&mut buf[..room])?;
        if count == 0 {
            return Ok(bytes);
        }
        if count > LIMIT - bytes.len() {
            return Err(ReadError::TooLong);
        }
        bytes.extend_from_slice(&buf[..count])?;
    }
}

/// Writes a text whole: it is offered whole, and then what is left of it.
pub fn write_whole<K: Sink>(sink: &mut K, text: &[u8]) -> Result<(), Failed>
    ensures later { K.faults sink.old ≤ K.faults sink.new }
    ensures whole { OnOk result (Appends (K.held sink.old) (K.held sink.new) text.now) }
    ensures kept { OnOk result (K.faults sink.new ≡ K.faults sink.old) }
    ensures failed { OnErr result (Rose (K.faults sink.old) (K.faults sink.new)) }
    // What it holds of the text is a proper prefix.
    ensures prefix { OnErr result (Took (K.held sink.old) (K.held sink.new) text.now) }
{
    let mut done = 0;
    while done < text.len() {
        done += sink.write(&text[done..])?;
    }
    Ok(())
}
