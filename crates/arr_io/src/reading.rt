ghost use Rattle.std.specs.Prelude.{◌≡◌, ◌+◌, ◌<◌, ◌≤◌, IfOk, IsErrOf, vec_len};
ghost use Rattle.std.specs.Io.KnownBytes.{Consumes, IsAtEnd};
ghost use Rattle.arr_io.specs.Causes.{Rose};
ghost use Rattle.arr_io.specs.Taken.{HadMoreThan, TakesAtMost};

use crate::{NoMemory, Source};
use std::alloc::Global;
use thiserror::Error;

/// Why not all bytes of a source were read.
#[derive(Clone, Copy, Debug, PartialEq, Eq, Error)]
pub enum ReadFailure {
    #[error("a read failed")]
    ReadFault,
    #[error("there are too many bytes")]
    TooLong,
    #[error("no memory is left")]
    NoMemory,
}

/// How many bytes one read asks for at most.
const PIECE: usize = 8192;

/// The bytes to the end of input, or the first `most` of them where there are more.
///
/// `ReadFault` comes only where the source's count of faults rose in this call, and `NoMemory` where memory ran out;
/// `TooLong` never comes. At most `most` bytes are taken.
pub fn read_up_to<S: Source>(
    alloc: Global,
    source: &mut S,
    most: u64,
) -> Result<Vec<u8>, ReadFailure>
    requires { most ≤ 67_108_865 }
    ensures front { IfOk result (λ bytes. Consumes (S.left source.old) (S.left source.new) bytes.items) }
    ensures within { IfOk result (λ bytes. vec_len bytes ≤ most) }
    ensures whole { IfOk result (λ bytes. vec_len bytes < most → IsAtEnd (S.left source.new)) }
    ensures short { IsErrOf result ReadFailure.TooLong → ⊥ }
    ensures taken { TakesAtMost (S.left source.old) (S.left source.new) most }
    ensures later { S.faults source.old ≤ S.faults source.new }
    ensures cause { IsErrOf result ReadFailure.ReadFault → Rose (S.faults source.old) (S.faults source.new) }
{
    let most = most as usize;
    let mut bytes = Vec::new(alloc);
    let mut buffer = [0; PIECE];
    while bytes.len() < most {
        let wanted = PIECE.min(most - bytes.len());
        let Ok(count) = source.read(&mut buffer[..wanted]) else {
            return Err(ReadFailure::ReadFault);
        };
        if count == 0 {
            break;
        }
        if bytes.extend_from_slice(&buffer[..count]).is_err() {
            return Err(ReadFailure::NoMemory);
        }
    }
    Ok(bytes)
}

/// All bytes to the end of input, at most `limit` of them.
///
/// `ReadFault` comes only where the source's count of faults rose in this call, `TooLong` exactly where more than `limit`
/// bytes came, and `NoMemory` where memory ran out. At most `limit + 1` bytes are taken.
pub fn read_all<S: Source>(
    alloc: Global,
    source: &mut S,
    limit: u64,
) -> Result<Vec<u8>, ReadFailure>
    requires { limit ≤ 67_108_864 }
    ensures all { IfOk result (λ bytes. Consumes (S.left source.old) (S.left source.new) bytes.items
        × IsAtEnd (S.left source.new)) }
    ensures within { IfOk result (λ bytes. vec_len bytes ≤ limit) }
    ensures too_long { IsErrOf result ReadFailure.TooLong → HadMoreThan (S.left source.old) limit }
    ensures taken { TakesAtMost (S.left source.old) (S.left source.new) (limit + 1) }
    ensures later { S.faults source.old ≤ S.faults source.new }
    ensures cause { IsErrOf result ReadFailure.ReadFault → Rose (S.faults source.old) (S.faults source.new) }
{
    let bytes = match read_up_to(alloc, source, limit + 1) {
        Ok(bytes) => bytes,
        Err(failure) => return Err(failure),
    };
    if bytes.len() as u64 > limit {
        return Err(ReadFailure::TooLong);
    }
    Ok(bytes)
}
