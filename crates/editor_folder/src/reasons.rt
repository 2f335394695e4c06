//! Why a file's text is not a command, for people.
use crate::data_reasons::{json_slip, number_slip};
use crate::finding::{Finding, Weight};
use crate::place::{Place, place_of};
use crate::template_reasons::template_reason;
use command::CommandFault;
use context::DataFault;
use editor_command::Refusal;
use site_ids::{MAX_VALUE, TICKET_BYTES};
use std::alloc::{AllocError, Global};

/// What is wrong with a file. The formats do not know the fault if it has no label.
fn finding(
    alloc: Global,
    weight: Weight,
    file: &str,
    place: Option<Place>,
    reason: String,
    label: Option<String>,
) -> Result<Finding, AllocError> {
    let file = String::from_str(alloc, file)?;
    Ok(Finding {
        weight,
        file,
        place,
        reason,
        label,
    })
}

/// A fault of a file that the formats do not know.
pub(crate) fn fault_in(
    alloc: Global,
    file: &str,
    place: Option<Place>,
    reason: &str,
) -> Result<Finding, AllocError> {
    let reason = String::from_str(alloc, reason)?;
    finding(alloc, Weight::Fault, file, place, reason, None)
}

/// A fault of a line of a file.
pub(crate) fn line_fault(
    alloc: Global,
    file: &str,
    line: usize,
    reason: String,
) -> Result<Finding, AllocError> {
    let place = Some(Place { line, column: 1 });
    finding(alloc, Weight::Fault, file, place, reason, None)
}

/// A warning of a line or a place of a file.
pub(crate) fn warning_in(
    alloc: Global,
    file: &str,
    place: Place,
    reason: String,
) -> Result<Finding, AllocError> {
    finding(alloc, Weight::Warning, file, Some(place), reason, None)
}

/// A warning of a file as a whole.
pub(crate) fn file_warning(alloc: Global, file: &str, reason: &str) -> Result<Finding, AllocError> {
    let reason = String::from_str(alloc, reason)?;
    finding(alloc, Weight::Warning, file, None, reason, None)
}

/// A fault of a file that is not UTF-8, at the first wrong byte.
pub(crate) fn no_text(
    alloc: Global,
    file: &str,
    bytes: &[u8],
    at: usize,
) -> Result<Finding, AllocError> {
    fault_in(
        alloc,
        file,
        Some(place_of(bytes, at)),
        "no UTF-8 from here on: save the file as UTF-8",
    )
}

/// How long a file may be whose command has `head` bytes before its text.
fn room(head: usize) -> usize {
    MAX_VALUE.saturating_sub(TICKET_BYTES).saturating_sub(head)
}

/// Where and why a file's text is not a command. The command has `head` bytes, then the text.
fn place_and_reason(
    alloc: Global,
    head: usize,
    text: &str,
    fault: &CommandFault,
) -> Result<(Option<Place>, String), AllocError> {
    let told = match fault {
        CommandFault::TooLong => {
            let has = text.len();
            let most = room(head);
            let reason = format!(in alloc;
                "the file has {has} bytes, and may have {most}: part it"
            )?;
            (None, reason)
        }
        CommandFault::Form | CommandFault::Name => (
            None,
            String::from_str(
                alloc,
                "rename the file: a name is 1 to 64 of the letters a to z and A to Z, digits, _ - . and /",
            )?,
        ),
        CommandFault::Path => (None, String::from_str(alloc, "an invalid path")?),
        CommandFault::Template(fault) => {
            let place = place_of(text.as_bytes(), fault.place);
            (Some(place), template_reason(alloc, text, *fault)?)
        }
        CommandFault::Data(DataFault::NotWhole) => {
            let slip = number_slip(alloc, text.as_bytes())?;
            (Some(place_of(text.as_bytes(), slip.at)), slip.reason)
        }
        CommandFault::Data(_) => {
            let slip = json_slip(alloc, text.as_bytes())?;
            (Some(place_of(text.as_bytes(), slip.at)), slip.reason)
        }
        CommandFault::OutOfMemory => return Err(AllocError),
    };
    Ok(told)
}

/// What is wrong with a file, whose command has `head` bytes, then the file's text.
pub(crate) fn file_fault(
    alloc: Global,
    file: &str,
    head: usize,
    text: &str,
    refusal: Refusal,
) -> Result<Finding, AllocError> {
    let (place, reason) = place_and_reason(alloc, head, text, &refusal.fault)?;
    finding(
        alloc,
        Weight::Fault,
        file,
        place,
        reason,
        Some(refusal.line),
    )
}
