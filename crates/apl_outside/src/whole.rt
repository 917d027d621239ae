//! All bytes of a source, and all of a piece to a sink.

ghost use Rattle.std.specs.Prelude.{◌≡◌, ◌<◌, ◌≤◌, ◌+◌, [], length, IfOk, IsOk, IfSome, IsErrOf, OnOk, OnErr};
ghost use Rattle.apl_outside.specs.Bytes.{Loses, Gains, LosesCount, LosesUpTo, GainsPart};
ghost use Rattle.apl_outside.specs.Faults.{Rose};

use crate::sinks::Sink;
use crate::sources::{Failed, Source};
use std::alloc::Global;
use thiserror::Error;

/// Why a source was not read to its end.
#[derive(Clone, Copy, Debug, PartialEq, Eq, Error)]
pub enum ReadEnd {
    #[error("the source failed")]
    Failed,
    #[error("the source holds too many bytes")]
    TooLong,
    #[error("memory was wanting")]
    NoMemory,
}

/// The most bytes that one pull of `read_all` asks for.
const CHUNK: usize = 65536;

/// Pushes until the sink has taken the whole piece. An empty piece makes no call. It takes no memory.
pub fn push_all<O: Sink>(sink: &mut O, piece: &[u8]) -> Result<(), Failed>
    ensures ok { OnOk result (Gains (O.written sink.old) (O.written sink.new) piece.now) }
    ensures err { OnErr result (GainsPart (O.written sink.old) (O.written sink.new) piece.now) }
    ensures failed { OnErr result (Rose (O.faults sink.old) (O.faults sink.new)) }
    ensures never_falls { O.faults sink.old ≤ O.faults sink.new }

    // An empty piece makes no call.
    ensures empty_ok { piece.now ≡ [] → IsOk result }
    ensures empty_same { piece.now ≡ [] → sink.new ≡ sink.old }
{
    let mut done = 0;
    while done < piece.len() {
        done += sink.push(&piece[done..])?;
    }
    Ok(())
}

/// Reads to the end of the source, which must come within `most` bytes.
pub fn read_all<S: Source>(alloc: Global, src: &mut S, most: usize) -> Result<Vec<u8>, ReadEnd>
    requires { most < usize.MAX }
    ensures ok { IfOk result (λ bytes. Loses (S.left src.old) (S.left src.new) bytes.items) }
    ensures all { IfOk result (λ bytes. IfSome (S.left src.old) (λ held. bytes.items ≡ held)) }
    ensures emptied { OnOk result (IfSome (S.left src.new) (λ rest. rest ≡ [])) }
    ensures within { IfOk result (λ bytes. length bytes.items ≤ most) }

    ensures too_long { IsErrOf result ReadEnd.TooLong
        → LosesCount (S.left src.old) (S.left src.new) (most + 1) }
    ensures was_longer { IsErrOf result ReadEnd.TooLong
        → IfSome (S.left src.old) (λ held. most < length held) }
    ensures failed { IsErrOf result ReadEnd.Failed
        → LosesUpTo (S.left src.old) (S.left src.new) most }
    ensures rose { IsErrOf result ReadEnd.Failed → Rose (S.faults src.old) (S.faults src.new) }
    ensures no_memory { IsErrOf result ReadEnd.NoMemory
        → LosesUpTo (S.left src.old) (S.left src.new) most }
    ensures never_falls { S.faults src.old ≤ S.faults src.new }
{
    let mut bytes = Vec::new(alloc);
    let Ok(mut chunk) = vec![in alloc; 0u8; CHUNK.min(most + 1)] else {
        return Err(ReadEnd::NoMemory);
    };
    loop {
        let asked = CHUNK.min(most + 1 - bytes.len());
        let part = &mut chunk[..asked];
        let Ok(count) = src.pull(part) else {
            return Err(ReadEnd::Failed);
        };
        if count == 0 {
            return Ok(bytes);
        }
        if bytes.len() + count > most {
            return Err(ReadEnd::TooLong);
        }
        let Ok(()) = bytes.extend_from_slice(&part[..count]) else {
            return Err(ReadEnd::NoMemory);
        };
    }
}
