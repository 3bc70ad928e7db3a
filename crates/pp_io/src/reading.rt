// Reading all of a source.
ghost use Rattle.std.specs.Prelude.{◌≡◌, ◌↔◌, ℕ, ◌<◌, ◌≤◌, List, length, vec_len, IfOk, OnOk, IfSome, IsErrOf};
ghost use Rattle.pp_io.specs.declared.reading.ReadError.TheVariants.{Fault, Memory};
ghost use Rattle.pp_io.specs.Ends.{Rose, Gave, GaveAll};

use super::ends::{Failed, Source};
use std::alloc::{AllocError, Global};
use thiserror::Error;

const BLOCK: usize = 4_096;

/// Why a source was not read to its end.
#[derive(Clone, Copy, Debug, PartialEq, Eq, Error)]
pub enum ReadError {
    #[error("a read failed")]
    Fault,
    #[error("the input is too long")]
    TooLong,
    #[error("out of memory")]
    Memory,
}

impl From<Failed> for ReadError {
    ghost from_gives = { λ _ error. error ≡ Fault };

    fn from(_failed: Failed) -> ReadError {
        ReadError::Fault
    }
}

impl From<AllocError> for ReadError {
    ghost from_gives = { λ _ error. error ≡ Memory };

    fn from(_error: AllocError) -> ReadError {
        ReadError::Memory
    }
}

/// Reads all that `source` has left, if that is at most `limit` bytes.
///
/// Each read is lent 4,096 bytes and each but the last gives at least one, so there are at most
/// `limit + 2` reads. After an error the bytes read so far are gone from the source.
pub fn read_all<S: Source>(
    alloc: Global,
    source: &mut S,
    limit: usize,
) -> Result<Vec<u8>, ReadError>
    requires { limit ≤ 4194304 }
    ensures count { S.faults source.old ≤ S.faults source.new }
    ensures within { IfOk result (λ v. vec_len v ≤ limit) }
    ensures all { IfOk result (λ v. GaveAll (S.left source.old) (S.left source.new) v.items) }
    ensures rose { IsErrOf result ReadError.Fault → Rose (S.faults source.old) (S.faults source.new) }
    ensures taken { (taken : List ℕ) × Gave (S.left source.old) (S.left source.new) taken
        × (IsErrOf result ReadError.TooLong ↔ (limit < length taken)) }
    ensures too_long { IsErrOf result ReadError.TooLong →
        IfSome (S.left source.old) (λ bytes. limit < length bytes) }
    ensures fits { OnOk result (IfSome (S.left source.old) (λ bytes. length bytes ≤ limit)) }
{
    let mut block = [0u8; BLOCK];
    let mut bytes = Vec::new(alloc);
    loop {
        let n = source.read(&mut block)?;
        if n == 0 {
            return Ok(bytes);
        }
        if limit - bytes.len() < n {
            return Err(ReadError::TooLong);
        }
        bytes.extend_from_slice(&block[..n])?;
    }
}
