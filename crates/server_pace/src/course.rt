//! How far a node that asked is told.

ghost use Rattle.std.specs.Prelude.{◌≡◌};
ghost use Rattle.server_pace.specs.Courses.{asked_again, first_course, flight_by, flight_of, heard_on};
ghost use Rattle.server_pace.specs.Courses.{is_open, moved_on, stretches_to, told_on};

use node::MAX_TOLD;
use server_times::{Times, has_passed};
use site_ids::Instance;

/// What another node asked for last, and how far it was told since.
///
/// It is told stretch after stretch. The number that may be on their way grows while it asks further on, and
/// shrinks when it asks again for what it was told. So the line is kept full, but no fuller.
#[derive(Clone, Copy, Debug, PartialEq, Eq, Drop)]
pub struct Course {
    /// The number of the instance that it asked for last.
    pub first: u32,
    /// The instance from which it is told next.
    pub next: u32,
    /// How many stretches from the first instance on may be on their way.
    pub budget: u32,
    /// How many questions in a row came no further on than the one before.
    pub repeats: u32,
    /// When its last question was heard, in milliseconds since the server began.
    pub at: u64,
    /// Since when it is told from the first instance on: it asked further on then, or was told again.
    pub since: u64,
    /// It was told again at that time, or for the first time.
    pub back: bool,
    /// How many milliseconds it took the last time, from then until it asked further on.
    pub took: u64,
    /// It was told nothing since its last question.
    pub asked: bool,
}

impl Course {
    /// The course of a node which asks for this instance, and of which nothing was heard before.
    pub fn new(times: Times, now: u64, instance: Instance) -> Course
        ensures { result ≡ first_course times now instance }
    {
        Course {
            first: instance.number(),
            next: instance.number(),
            budget: times.least,
            repeats: 0,
            at: now,
            since: now,
            back: true,
            took: times.flight,
            asked: true,
        }
    }

    /// By how many stretches an instance is further on than the last one that was asked for.
    fn stretches_to(self, instance: u32) -> u32
        ensures { result ≡ stretches_to self instance }
    {
        let further = instance.saturating_sub(self.first);
        further.saturating_sub(1) / MAX_TOLD + 1
    }

    /// How long it took to ask further on.
    fn flight_by(self, now: u64) -> u64
        ensures { result ≡ flight_by self now }
    {
        if self.back {
            now.saturating_sub(self.since)
        } else {
            self.took
        }
    }

    /// For how many milliseconds a telling to it may be on its way.
    fn flight(self) -> u64
        ensures { result ≡ flight_of self }
    {
        if self.back {
            self.took.saturating_mul(2)
        } else {
            self.took
        }
    }

    /// It asked further on.
    fn moved_on(self, times: Times, now: u64, instance: u32) -> Course
        ensures { result ≡ moved_on times now instance self }
    {
        let more = self.budget.saturating_add(self.stretches_to(instance));
        Course {
            first: instance,
            next: self.next.max(instance),
            budget: more.min(times.most),
            repeats: 0,
            at: now,
            since: now,
            back: false,
            took: self.flight_by(now),
            asked: true,
        }
    }

    /// It asked again, for an instance that an answer to its last question does not pass.
    fn asked_again(self, times: Times, now: u64, instance: u32) -> Course
        ensures { result ≡ asked_again times now instance self }
    {
        let again = Course {
            first: instance,
            next: self.next.max(instance),
            repeats: self.repeats.saturating_add(1),
            at: now,
            asked: true,
            ..self
        };
        if now.saturating_sub(self.since) <= self.flight() {
            return again;
        }
        Course {
            next: instance,
            budget: (self.budget.saturating_mul(3) / 4).max(times.least),
            since: now,
            back: true,
            ..again
        }
    }

    /// The course after it asks for this instance.
    pub fn heard(self, times: Times, now: u64, instance: Instance) -> Course
        ensures { result ≡ heard_on times now instance self }
    {
        let number = instance.number();
        if number > self.first.saturating_add(1) {
            return self.moved_on(times, now, number);
        }
        if number >= self.first {
            return self.asked_again(times, now, number);
        }
        if has_passed(Some(self.at), now, times.late) {
            return Course::new(times, now, instance);
        }
        self
    }

    /// Whether a telling of `count` instances may set out now.
    pub fn is_open(self, count: u32) -> bool
        ensures { result ≡ is_open self count }
    {
        let ahead = self.next.saturating_sub(self.first);
        ahead <= self.budget.saturating_sub(1).saturating_mul(count)
    }

    /// It is told of `count` instances.
    pub fn told(self, count: u32) -> Course
        ensures { result ≡ told_on self count }
    {
        Course {
            next: self.next.saturating_add(count),
            asked: false,
            ..self
        }
    }
}
