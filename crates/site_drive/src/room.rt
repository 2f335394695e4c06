//! When the file of a record grows ahead of what it records.

ghost use Rattle.std.specs.Prelude.{◌≡◌, ◌↔◌, ◌+◌, ◌-◌, ◌/◌, ◌^◌, min, IsTrue};
ghost use Rattle.site_drive.specs.Growing.{IsDue};

/// How much room a file gets after its record, and when it gets room again. All are bytes.
#[derive(Clone, Copy, Debug, PartialEq, Eq, Drop)]
pub struct Room {
    /// The room that it gets. At 0 it never grows ahead.
    pub size: u64,
    /// From which length of the record on it may get room again.
    pub next: u64,
}

impl Room {
    /// A file that never grows ahead.
    pub fn none() -> Room
        ensures { result ≡ record { size = 0; next = 0 } }
    {
        Room { size: 0, next: 0 }
    }

    /// Whether the file of a record of `bytes` bytes grows now. While nothing waits (`idle`), half of the
    /// room has to be used; else three quarters.
    pub fn is_due(self, bytes: u64, idle: bool) -> bool
        ensures { IsTrue result ↔ IsDue self bytes idle }
    {
        self.size > 0 && bytes >= self.next && (idle || bytes - self.next >= self.size / 4)
    }

    /// The same after the file of a record of `bytes` bytes grew, or could not. A file without room is tried
    /// again only after as much was recorded as half of the room.
    pub fn after(self, bytes: u64) -> Room
        ensures { result ≡ record self { next = min (bytes + self.size / 2) (2 ^ 64 - 1) } }
    {
        Room {
            size: self.size,
            next: bytes.saturating_add(self.size / 2),
        }
    }
}
