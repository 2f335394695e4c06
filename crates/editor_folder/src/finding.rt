use crate::place::Place;
use std::fmt;

/// How much a finding matters.
#[derive(Clone, Copy, Debug, PartialEq, Eq)]
pub enum Weight {
    /// The folder can't be published.
    Fault,
    /// The folder can be published, but its pages may not be what was meant.
    Warning,
}

/// What is wrong with a folder: in which file, where in it if that is known, why and what to do. `label` is
/// the formats' own line for the fault, if they have one.
#[derive(Drop)]
pub struct Finding {
    pub weight: Weight,
    pub file: String,
    pub place: Option<Place>,
    pub reason: String,
    pub label: Option<String>,
}

impl fmt::Display for Finding {
    fn fmt<W: fmt::Write>(&self, f: &mut fmt::Formatter<W>) -> fmt::Result {
        f.write_str(self.file.as_str())?;
        if let Some(place) = &self.place {
            let line = place.line;
            let column = place.column;
            write!(f, ":{line}:{column}")?;
        }
        f.write_str(": ")?;
        if self.weight == Weight::Warning {
            f.write_str("warning: ")?;
        }
        f.write_str(self.reason.as_str())?;
        if let Some(label) = &self.label {
            let label = label.as_str();
            write!(f, " [{label}]")?;
        }
        Ok(())
    }
}
