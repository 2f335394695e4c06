//! Reads whole inputs.
ghost use Rattle.std.specs.Prelude.{◌≡◌, ℕ, List, IsErrOf, IfOk};
ghost use Rattle.std.specs.Io.KnownBytes.{Consumes};
ghost use Rattle.http_read.specs.Bytes.{end_of, IsSound, HasFailed, IsRead};
ghost use Rattle.http_read.specs.Counted.{inside};

use http_read::Counted;
use std::alloc::{AllocError, Global};
use std::io::Read;
use thiserror::Error;

/// How many bytes one call asks for.
const CHUNK: usize = 8192;

/// Why an input was not read.
#[derive(Clone, Copy, Debug, Drop, PartialEq, Eq, Error)]
pub enum InputFault {
    #[error("the reader failed")]
    Read,
    #[error("out of memory")]
    OutOfMemory,
}

impl From<AllocError> for InputFault {
    ghost use Rattle.std.specs.Prelude.{◌≡◌};
    ghost use Rattle.engine_common.specs.declared.ends.InputFault.TheVariants.{OutOfMemory};

    ghost from_gives = { λ _ e. e ≡ OutOfMemory };

    fn from(_refused: AllocError) -> InputFault {
        InputFault::OutOfMemory
    }
}

/// Reads to the end.
pub fn read_all<R: Read>(alloc: Global, reader: &mut Counted<R>) -> Result<Vec<u8>, InputFault>
    ensures ok { IfOk result (λ v. IsRead (end_of R.remaining reader.old reader.new) v.items) }
    ensures read { IsErrOf result InputFault.Read → HasFailed (end_of R.remaining reader.old reader.new) }
    ensures memory { IsErrOf result InputFault.OutOfMemory
        → IsSound (end_of R.remaining reader.old reader.new) }
    ensures taken { (bytes : List ℕ) × Consumes (R.remaining (inside reader.old))
        (R.remaining (inside reader.new)) bytes }
{
    let mut bytes = Vec::new(alloc);
    let mut chunk = [0; CHUNK];
    loop {
        match reader.read(&mut chunk) {
            Ok(0) => return Ok(bytes),
            Ok(n) => bytes.extend_from_slice(&chunk[..n])?,
            Err(_) => return Err(InputFault::Read),
        }
    }
}
