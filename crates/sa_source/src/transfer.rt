ghost use Rattle.std.specs.Prelude.{◌≡◌, ◌<◌, ◌≤◌, length, take, vec_len, IfOk, OnOk, OnErr, IsErrOf};
ghost use Rattle.sa_source.specs.Source.{Takes, IsAtEnd, HasRisen};
ghost use Rattle.sa_source.specs.Sink.{Appends};
ghost use Rattle.sa_source.specs.Transfer.{ReadsUpTo, WritesPart};

use crate::sink::{Sink, SinkFault};
use crate::source::{Failed, Source};
use std::alloc::{AllocError, Global};

/// Why an input was not read.
#[derive(Clone, Copy, Debug, PartialEq, Eq)]
pub enum ReadStop {
    /// A read failed.
    Failed,
    /// Memory ran out.
    OutOfMemory,
}

/// How many bytes are read at once.
const PIECE: usize = 65536;

/// Reads to the end of the input, or its first `limit` bytes.
pub fn read_up_to<S: Source>(
    alloc: Global,
    source: &mut S,
    limit: usize,
) -> Result<Vec<u8>, ReadStop>
    ensures counts { S.faults source.old ≤ S.faults source.new }
    ensures read { IfOk result
        (λ bytes. ReadsUpTo limit (S.left source.old) (S.left source.new) bytes.items) }
    ensures failed { IsErrOf result ReadStop.Failed
        → HasRisen (S.faults source.old) (S.faults source.new) }
{
    match new_buffer(alloc) {
        Ok(mut buffer) => read_through(alloc, source, buffer.as_mut_slice(), limit),
        Err(_) => Err(ReadStop::OutOfMemory),
    }
}

/// Room for the bytes that are read at once.
fn new_buffer(alloc: Global) -> Result<Vec<u8>, AllocError>
    ensures { IfOk result (λ buffer. 0 < vec_len buffer) }
{
    vec![in alloc; 0u8; PIECE]
}

/// Reads one piece of at most `room` bytes into the front of the buffer.
fn read_piece<S: Source>(source: &mut S, buffer: &mut [u8], room: usize) -> Result<usize, Failed>
    requires { room ≤ length buffer.old }
    ensures counts { S.faults source.old ≤ S.faults source.new }
    ensures fits { IfOk result (λ n. n ≤ room) }
    ensures took { IfOk result
        (λ n. Takes (S.left source.old) (S.left source.new) (take n buffer.new)) }
    ensures end { IfOk result (λ n. n ≡ 0 → 0 < room → IsAtEnd (S.left source.old)) }
    ensures failed { OnErr result (HasRisen (S.faults source.old) (S.faults source.new)) }
{
    source.read(&mut buffer[..room])
}

/// Reads through a buffer, to the end of the input or its first `limit` bytes.
fn read_through<S: Source>(
    alloc: Global,
    source: &mut S,
    buffer: &mut [u8],
    limit: usize,
) -> Result<Vec<u8>, ReadStop>
    requires { 0 < length buffer.old }
    ensures counts { S.faults source.old ≤ S.faults source.new }
    ensures read { IfOk result
        (λ bytes. ReadsUpTo limit (S.left source.old) (S.left source.new) bytes.items) }
    ensures failed { IsErrOf result ReadStop.Failed
        → HasRisen (S.faults source.old) (S.faults source.new) }
{
    let mut bytes = Vec::new(alloc);
    while bytes.len() < limit {
        let room = buffer.len().min(limit - bytes.len());
        match read_piece(source, buffer, room) {
            Ok(0) => return Ok(bytes),
            Ok(count) => {
                if bytes.extend_from_slice(&buffer[..count]).is_err() {
                    return Err(ReadStop::OutOfMemory);
                }
            }
            Err(Failed) => return Err(ReadStop::Failed),
        }
    }
    Ok(bytes)
}

/// Writes the whole text. After an error the sink has taken only a beginning of it.
#[tactic(auto, using(crate::proofs::Writes::appended))]
pub fn write_all<K: Sink>(sink: &mut K, text: &[u8]) -> Result<(), SinkFault>
    ensures counts { K.faults sink.old ≤ K.faults sink.new }
    ensures whole { OnOk result (Appends (K.taken sink.old) (K.taken sink.new) text.now) }
    ensures part { OnErr result (WritesPart (K.taken sink.old) (K.taken sink.new) text.now) }
    ensures failed { IsErrOf result SinkFault.Failed
        → HasRisen (K.faults sink.old) (K.faults sink.new) }
{
    let mut written = 0;
    while written < text.len() {
        written += sink.write(&text[written..])?;
    }
    Ok(())
}
