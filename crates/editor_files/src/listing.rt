//! Findings for programs.
use editor_folder::{Finding, Place, Weight};
use serde_json::{Value, json};
use std::alloc::{AllocError, Global};

/// The name of a finding's weight.
fn weight_name(weight: Weight) -> &'static str {
    match weight {
        Weight::Fault => "fault",
        Weight::Warning => "warning",
    }
}

fn line_of(place: &Place) -> u64 {
    place.line as u64
}

fn column_of(place: &Place) -> u64 {
    place.column as u64
}

/// A text, if there is one.
fn text_of(alloc: Global, text: Option<&String>) -> Result<Value, AllocError> {
    match text {
        Some(text) => Value::try_from_str(alloc, text.as_str()),
        None => Ok(Value::Null),
    }
}

/// A finding as one JSON object.
fn finding_value(alloc: Global, finding: &Finding) -> Result<Value, AllocError> {
    let line = finding.place.as_ref().map(line_of);
    let column = finding.place.as_ref().map(column_of);
    let code = text_of(alloc, finding.label.as_ref())?;
    json!(in alloc; {
        "weight": weight_name(finding.weight),
        "file": &finding.file,
        "line": line,
        "column": column,
        "reason": &finding.reason,
        "code": code
    })
}

/// Adds findings to a list, an object each.
pub fn list_findings(
    alloc: Global,
    list: &mut Vec<Value>,
    findings: &[Finding],
) -> Result<(), AllocError> {
    for finding in findings {
        list.push(finding_value(alloc, finding)?)?;
    }
    Ok(())
}
