//! The bytes that were read from a connection and not yet used.
//!
//! An inbox reads from the connection by itself: if it lent its room for that, no clause could say what the
//! reader wrote into it.

ghost use Rattle.std.specs.Prelude.{◌≡◌, ◌≢◌, ℕ, ◌+◌, ◌-◌, List, [], ◌<◌, ◌≤◌, length, take, drop};
ghost use Rattle.std.specs.Prelude.{slice_range, Ok, IfOk, OnOk, OnErr, IfErr, IsErrOf, IsTrue, ◌↔◌, vec_len};
ghost use Rattle.std.specs.Io.KnownBytes.{Keeps, IsAtEnd};
ghost use Rattle.http_read.specs.declared.heads.TheConstants.{HEAD_LIMIT};
ghost use Rattle.http_read.specs.Counted.{inside, failed, RoseByOne};
ghost use Rattle.http_read.specs.declared.inbox.TheConstants.{ROOM};
ghost use Rattle.http_read.specs.Input.{input_of, Receives};

use crate::counted::Counted;
use crate::fault::ReadFault;
use std::alloc::{AllocError, Global};
use std::io;
use std::io::Read;
use std::marker::Model;

/// How many bytes an inbox holds at most: room for a whole head that comes at once, and for as many bytes
/// more.
const ROOM: usize = 16_384;

/// The bytes that were read from a connection and not yet used, in a buffer of 16 KB that is made at the
/// first reading.
///
/// One inbox serves a connection: what a client sends ahead is kept for its next request.
#[derive(Drop)]
pub struct Inbox {
    buffer: Vec<u8>,
    start: usize,
    end: usize,
}

impl Model for Inbox {
    ghost Value = { List ℕ };

    ghost view = { λ b. slice_range b.buffer.items b.start b.end };

    ghost invariant = { λ b. (b.start ≤ b.end) × (b.end ≤ vec_len b.buffer) };
}

impl Inbox {
    /// Nothing was read yet.
    pub fn new(alloc: Global) -> Inbox
        ensures { result ≡ [] }
    {
        Inbox {
            buffer: Vec::new(alloc),
            start: 0,
            end: 0,
        }
    }

    /// What is held.
    pub fn held(&self) -> &[u8]
        ensures { result.now ≡ self.now }
    {
        &self.buffer.as_slice()[self.start..self.end]
    }

    /// Drops the first bytes.
    pub(crate) fn pass(&mut self, n: usize)
        requires { n ≤ length self.old }
        ensures { self.new ≡ drop n self.old }
    {
        self.start += n;
    }

    /// Whether there is no room for one more byte.
    pub fn is_full(&self) -> bool
        ensures { IsTrue result ↔ (ROOM ≤ length self.now) }
    {
        self.end - self.start >= ROOM
    }

    /// Reads once, after what is held, which is moved to the front first: so the room of all used bytes is
    /// free again.
    ///
    /// `Ok(0)` is the end of the input. A reader that has no byte yet and doesn't wait for one (`WouldBlock`)
    /// has failed; it can be read again.
    pub fn read_from<R: Read>(
        &mut self,
        reader: &mut Counted<R>,
    ) -> Result<io::Result<usize>, AllocError>
        requires { length self.old < ROOM }
        ensures came { IfOk result (λ read. IfOk read (λ n. Receives n self.old self.new
            (R.remaining (inside reader.old)) (R.remaining (inside reader.new)))) }
        ensures ended { result ≡ Ok (Ok 0) → IsAtEnd (R.remaining (inside reader.new)) }
        ensures unread { IfOk result (λ read. OnErr read ((self.new ≡ self.old)
            × Keeps (R.remaining (inside reader.old)) (R.remaining (inside reader.new)))) }
        ensures failed { IfOk result (λ read. OnErr read
            (RoseByOne (failed reader.old) (failed reader.new))) }
        ensures quiet { IfOk result (λ read. OnOk read (failed reader.new ≡ failed reader.old)) }
        ensures memory { OnErr result ((self.new ≡ self.old) × (reader.new ≡ reader.old)) }
    {
        make_buffer(&mut self.buffer)?;
        let held = self.end - self.start;
        move_down(&mut self.buffer, self.start, self.end);
        self.start = 0;
        self.end = held;
        match reader.read(&mut self.buffer.as_mut_slice()[held..]) {
            Ok(n) => {
                self.end = held + n;
                Ok(Ok(n))
            }
            Err(e) => Ok(Err(e)),
        }
    }

    /// Reads once, as `read_from` does, for a byte or more.
    pub(crate) fn read_more<R: Read>(&mut self, reader: &mut Counted<R>) -> Result<(), ReadFault>
        requires { length self.old ≤ HEAD_LIMIT }
        ensures input { OnOk result (Keeps (input_of self.old (R.remaining (inside reader.old)))
            (input_of self.new (R.remaining (inside reader.new)))) }
        ensures grows { OnOk result (length self.old < length self.new) }
        ensures unread { IfErr result (λ fault. fault ≢ ReadFault.OutOfMemory →
            Keeps (input_of self.old (R.remaining (inside reader.old)))
            (input_of self.new (R.remaining (inside reader.new)))
            × (self.new ≡ self.old)) }
        ensures ended { IsErrOf result ReadFault.EndedEarly → IsAtEnd (R.remaining (inside reader.new)) }
        ensures failed { IsErrOf result ReadFault.Read → RoseByOne (failed reader.old) (failed reader.new) }
        ensures quiet { ¬ (IsErrOf result ReadFault.Read) → failed reader.new ≡ failed reader.old }
    {
        match self.read_from(reader)? {
            Ok(0) => Err(ReadFault::EndedEarly),
            Ok(_) => Ok(()),
            Err(_) => Err(ReadFault::Read),
        }
    }
}

/// Makes the buffer as long as it shall be.
fn make_buffer(buffer: &mut Vec<u8>) -> Result<(), AllocError>
    ensures front { take (vec_len buffer.old) buffer.new.items ≡ buffer.old.items }
    ensures room { OnOk result (ROOM ≤ vec_len buffer.new) }
    ensures len { vec_len buffer.old ≤ vec_len buffer.new }
{
    if buffer.len() < ROOM {
        buffer.resize(ROOM, 0)?;
    }
    Ok(())
}

/// Moves these bytes to the front.
fn move_down(buffer: &mut Vec<u8>, start: usize, end: usize)
    requires ordered { start ≤ end }
    requires within { end ≤ vec_len buffer.old }
    ensures front { take (end - start) buffer.new.items ≡ slice_range buffer.old.items start end }
    ensures len { vec_len buffer.new ≡ vec_len buffer.old }
{
    if start > 0 {
        buffer.as_mut_slice().copy_within(start..end, 0);
    }
}
