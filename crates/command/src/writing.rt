ghost use Rattle.std.specs.Prelude.{◌≡◌, IfOk};
ghost use Rattle.command.specs.Written.{value_of};

use byteorder::{BigEndian, ByteOrder};
use site_ids::{TICKET_BYTES, Ticket};
use std::alloc::{AllocError, Global};

/// The value of a ticket and a command text.
pub fn write(alloc: Global, ticket: Ticket, text: &[u8]) -> Result<Vec<u8>, AllocError>
    ensures { IfOk result (λ v. v.items ≡ value_of ticket text.now) }
{
    let mut front = [0u8; TICKET_BYTES];
    BigEndian::write_u32(&mut front[..4], ticket.editor);
    BigEndian::write_u64(&mut front[4..], ticket.number);
    let mut value = Vec::from_slice(alloc, &front)?;
    value.extend_from_slice(text)?;
    Ok(value)
}
