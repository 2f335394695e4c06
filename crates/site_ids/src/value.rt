//! Values of the log, and votes for them.

ghost use Rattle.std.specs.Prelude.{◌≡◌, IfOk};

use crate::Ballot;
use std::alloc::{AllocError, Global};
use std::marker::Model;
use std::rc::RcSlice;

/// The bytes of a value: a ticket and a command, or nothing, the no-op. Its copies share them.
#[derive(Debug, Drop)]
pub struct Value {
    bytes: RcSlice<u8>,
}

impl Model for Value {
    ghost use Rattle.std.specs.Prelude.{ℕ, List};
    ghost use Rattle.std.specs.Coded.{coded_ℕ, coded_list};
    ghost use Rattle.std.specs.Rc.{rc_slice_items};

    ghost Value = { List ℕ };

    ghost coded = { coded_list coded_ℕ };

    ghost view = { λ v. rc_slice_items v.bytes };
}

impl Value {
    /// Takes these bytes, without a copy of them.
    pub fn from_bytes(bytes: Vec<u8>) -> Result<Value, AllocError>
        ensures { IfOk result (λ v. v ≡ bytes.items) }
    {
        let bytes = RcSlice::from_vec(bytes)?;
        Ok(Value { bytes })
    }

    pub fn copied_from(alloc: Global, bytes: &[u8]) -> Result<Value, AllocError>
        ensures { IfOk result (λ v. v ≡ bytes.now) }
    {
        let bytes = RcSlice::from_slice(alloc, bytes)?;
        Ok(Value { bytes })
    }

    pub fn as_bytes(&self) -> &[u8]
        ensures { result.now ≡ self.now }
    {
        self.bytes.as_slice()
    }

    /// A copy that shares the bytes. It does not allocate.
    pub fn try_clone(&self) -> Result<Value, AllocError>
        ensures { IfOk result (λ v. v ≡ self.now) }
    {
        let bytes = self.bytes.clone()?;
        Ok(Value { bytes })
    }
}

/// What an acceptor accepted: a value at a ballot.
#[derive(Drop)]
pub struct Vote {
    pub ballot: Ballot,
    pub value: Value,
}

impl Vote {
    /// A copy that shares the value's bytes.
    pub fn try_clone(&self) -> Result<Vote, AllocError>
        ensures { IfOk result (λ v. v ≡ self.now) }
    {
        let value = self.value.try_clone()?;
        Ok(Vote {
            ballot: self.ballot,
            value,
        })
    }
}
