//! Sums of batches, by which a flipped bit is noticed.
//!
//! A sum guards against accidents and not against forgers, so eight bytes of MD5 are enough. It comes before
//! the bytes that it sums, with their number, so a flipped bit in one of their lengths hides nothing. Its
//! kind, 24, differs from the kind of each entry in at least two bits.

ghost use Rattle.std.specs.Prelude.{◌≡◌, ◌↔◌, ◌+◌, ◌<◌, ◌^◌, IsTrue, MatchOption, length, take, slice_index};
ghost use Rattle.durable.specs.Items.{sum_front, sum_of};
ghost use Rattle.durable.specs.Reading.{HasNoSum, IsSumAt};

use byteorder::{BigEndian, ByteOrder};
use md5::{Digest, Md5};

/// The length of a sum.
const SUM: usize = 8;

/// How many bytes come before the blocks of a batch.
pub(crate) const SUM_BLOCK: usize = 18;

/// What comes before the blocks of a batch: their number of bytes, and their sum.
#[derive(Clone, Copy)]
pub(crate) struct Sum {
    pub(crate) size: usize,
    pub(crate) sum: [u8; SUM],
}

/// The sum of bytes.
fn sum_of(bytes: &[u8]) -> [u8; SUM]
    ensures { result ≡ sum_of bytes.now }
{
    let digest = Md5::digest(bytes);
    let mut sum = [0; SUM];
    sum.copy_from_slice(&digest[..SUM]);
    sum
}

/// What comes before these blocks.
pub(crate) fn sum_front(blocks: &[u8]) -> [u8; SUM_BLOCK]
    requires { length blocks.now < 2 ^ 32 }
    ensures { result ≡ sum_front (length blocks.now) (sum_of blocks.now) }
{
    let mut front = [1, 0, 0, 0, 13, 24, 0, 0, 0, 0, 0, 0, 0, 0, 0, 0, 0, 0];
    BigEndian::write_u32(&mut front[6..], blocks.len() as u32);
    front[10..].copy_from_slice(&sum_of(blocks));
    front
}

impl Sum {
    /// The sum at a gate, if there is one.
    pub(crate) fn at(bytes: &[u8]) -> Option<Sum>
        ensures { MatchOption result (HasNoSum bytes.now) (λ s. IsSumAt bytes.now s.size s.sum) }
    {
        let [1, 0, 0, 0, 13, 24, a, b, c, d, e, f, g, h, i, j, k, l, ..] = bytes else {
            return None;
        };
        let size = u32::from_be_bytes([*a, *b, *c, *d]);
        if size == 0 {
            return None;
        }
        Some(Sum {
            size: size as usize,
            sum: [*e, *f, *g, *h, *i, *j, *k, *l],
        })
    }

    /// Whether it is the sum of these bytes except the last one, and that is an open gate.
    pub(crate) fn goes_on(self, bytes: &[u8]) -> bool
        requires { length bytes.now ≡ self.size + 1 }
        ensures { IsTrue result
            ↔ ((slice_index bytes.now self.size ≡ 1) × (self.sum ≡ sum_of (take self.size bytes.now))) }
    {
        bytes[self.size] == 1 && self.is_of(&bytes[..self.size])
    }

    /// Whether it is the sum of these bytes.
    pub(crate) fn is_of(self, bytes: &[u8]) -> bool
        ensures { IsTrue result ↔ (self.sum ≡ sum_of bytes.now) }
    {
        self.sum == sum_of(bytes)
    }
}
