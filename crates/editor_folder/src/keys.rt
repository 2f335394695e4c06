//! The keys of a text of JSON.
use crate::data_reasons::{Inside, step};
use serde_json::Value;
use std::alloc::{AllocError, Global};

/// A key: its name, the byte of its first quote, and the number of its object, in the order in which objects
/// begin.
#[derive(Drop)]
pub(crate) struct Key {
    pub name: String,
    pub at: usize,
    pub object: usize,
}

/// The text that a literal spells. The literal has its quotes.
fn name_in(alloc: Global, literal: &str) -> Result<String, AllocError> {
    if !literal.contains('\\') {
        return String::from_str(alloc, literal.trim_matches('"'));
    }
    match Value::from_slice(alloc, literal.as_bytes()) {
        Ok(value) => String::from_str(alloc, value.as_str().unwrap_or(literal)),
        Err(fault) if fault.is_memory() => Err(AllocError),
        Err(_fault) => String::from_str(alloc, literal),
    }
}

/// How far a reader of JSON is: the last text that ended, and the objects that are open, the innermost last.
#[derive(Drop)]
struct Walk<'a> {
    alloc: Global,
    text: &'a str,
    inside: Inside,
    /// The byte at which the last text began, and the one after its end.
    from: usize,
    to: usize,
    objects: usize,
    open: Vec<usize>,
    keys: Vec<Key>,
}

impl Walk<'_> {
    /// Takes the text that ended last as a key.
    fn take_key(&mut self) -> Result<(), AllocError> {
        let literal = self.text.get(self.from..self.to).unwrap_or("");
        let name = name_in(self.alloc, literal)?;
        let object = self.open.last().copied().unwrap_or(0);
        self.keys.push(Key {
            name,
            at: self.from,
            object,
        })?;
        Ok(())
    }

    fn begin_object(&mut self) -> Result<(), AllocError> {
        self.objects = self.objects.saturating_add(1);
        self.open.push(self.objects)?;
        Ok(())
    }

    /// Takes a byte outside of texts.
    fn take_outside(&mut self, at: usize, b: u8) -> Result<(), AllocError> {
        match b {
            b'"' => self.from = at,
            b':' => return self.take_key(),
            b'{' => return self.begin_object(),
            b'}' => {
                let _ = self.open.pop();
            }
            _ => {}
        }
        Ok(())
    }

    fn take(&mut self, at: usize, b: u8) -> Result<(), AllocError> {
        match self.inside {
            Inside::Nothing => self.take_outside(at, b)?,
            _ => self.to = at.saturating_add(1),
        }
        self.inside = step(self.inside, b);
        Ok(())
    }
}

/// The keys of a text of JSON, in order.
pub(crate) fn keys_of(alloc: Global, text: &str) -> Result<Vec<Key>, AllocError> {
    let mut walk = Walk {
        alloc,
        text,
        inside: Inside::Nothing,
        from: 0,
        to: 0,
        objects: 0,
        open: Vec::new(alloc),
        keys: Vec::new(alloc),
    };
    for (at, b) in text.as_bytes().iter().enumerate() {
        walk.take(at, *b)?;
    }
    Ok(walk.keys)
}
