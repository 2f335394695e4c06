//! Places of the log.

ghost use Rattle.std.specs.Prelude.{◌≡◌, ◌↔◌, ◌+◌, IsTrue, MatchOption};
ghost use Rattle.site_ids.specs.Ids.{IsInstance};
ghost use Rattle.site_ids.specs.Spans.{IsSpan};

use crate::{MAX_INSTANCE, MAX_SPAN};
use std::marker::Model;

/// A place of the log, from 1 on.
#[derive(Clone, Copy, Debug, PartialEq, Eq, PartialOrd, Ord, Drop)]
pub struct Instance {
    number: u32,
}

impl Model for Instance {
    ghost use Rattle.std.specs.Prelude.{ℕ};
    ghost use Rattle.std.specs.Coded.{coded_ℕ};
    ghost use Rattle.site_ids.specs.Ids.{IsInstance};

    ghost Value = { ℕ };

    ghost coded = { coded_ℕ };

    ghost view = { λ i. i.number };

    ghost invariant = { λ i. IsInstance i.number };

    ghost inverse = { λ n. record { number = n } };
}

impl Instance {
    pub fn new(number: u32) -> Option<Instance>
        ensures { MatchOption result (¬ IsInstance number) (λ i. (i ≡ number) × IsInstance number) }
    {
        if 1 <= number && number <= MAX_INSTANCE {
            Some(Instance { number })
        } else {
            None
        }
    }

    pub fn number(self) -> u32
        ensures is { result ≡ self }
        ensures range { IsInstance result }
    {
        self.number
    }

    /// The instance this many after it, if there is one.
    pub fn plus(self, count: u32) -> Option<Instance>
        ensures { MatchOption result (¬ IsInstance (self + count))
            (λ i. (i ≡ self + count) × IsInstance (self + count)) }
    {
        Instance::new(self.number.checked_add(count)?)
    }

    /// Whether this instance and those after it, `count` in all, are a span.
    pub fn begins_span(self, count: u8) -> bool
        ensures { IsTrue result ↔ IsSpan self count }
    {
        1 <= count && count <= MAX_SPAN && self.number + count as u32 <= MAX_INSTANCE + 1
    }
}
