//! What a server has to report.
//!
//! The kinds have an order, and each kind is reported at most once a second, so a flood of one does not hold
//! back another.

ghost use Rattle.std.specs.Prelude.{◌≡◌, ◌+◌, ◌^◌, ◌-◌, min, Bool, None, Some, if◌then◌else◌, ◌||◌};
ghost use Rattle.server_notes.specs.Due.{counted, due_if, due_notes, first_notes, following, heard_of};
ghost use Rattle.server_notes.specs.Due.{is_free, opened_of, settled, silent_of, Says, SaysOf};
ghost use Rattle.server_notes.specs.Hours.{is_hour};
ghost use Rattle.server_notes.specs.Listening.{Hears};

use crate::catching::Catching;
use crate::hours::{Figures, Hours};
use crate::listening::Listening;
use crate::muteness::Muteness;
use crate::note::Note;
use crate::publishing::Publishing;
use site_ids::{Cluster, NodeId, NodeSet};

/// Milliseconds between two lines of one kind, at least.
pub const EACH: u64 = 1000;

/// What a server heard from whom, what it counted, what it reported last, and when. Moments are milliseconds
/// since it began, none of them less than the one before.
#[derive(Clone, Copy, Drop)]
pub struct Notes {
    // the votes on the record, until they were reported
    votes: Option<u32>,
    muteness: Muteness,
    catching: Catching,
    listening: Listening,
    malformed: u64,
    displaced: u64,
    full: bool,
    publishing: Publishing,
    hours: Hours,
    // when a line of each kind was reported last, in the order of the kinds of `Note`
    said: [Option<u64>; 14],
}

impl Notes {
    /// The server begins, over a record with that many votes and that floor; 0 means no floor.
    pub fn new(cluster: Cluster, me: NodeId, votes: u32, floor: u32) -> Notes
        ensures { result ≡ first_notes cluster me votes floor }
    {
        Notes {
            votes: Some(votes),
            muteness: Muteness::new(floor),
            catching: Catching::Alone,
            listening: Listening::new(cluster, me),
            malformed: 0,
            displaced: 0,
            full: false,
            publishing: Publishing::new(),
            hours: Hours::new(),
            said: [None; 14],
        }
    }

    /// Messages of these nodes came. `known` values are known, and values up to `reached` were heard of.
    pub fn hear(&mut self, now: u64, known: u32, reached: u32, heard: NodeSet)
        ensures { (majority : Bool) × Hears self.old.listening now heard majority self.new.listening
            × (self.new ≡ record self.old {
              listening = self.new.listening;
              catching = following self.old.catching majority now known reached;
            }) }
    {
        if self.listening.hear(now, heard) {
            self.catching = self.catching.joined(now, known, reached);
        }
        self.catching = self.catching.learned(now, known, reached);
    }

    /// `malformed` datagrams spelled no message, and `displaced` connections were closed for further clients.
    /// `full` says whether further clients found no place.
    pub fn count(&mut self, malformed: u64, displaced: u64, full: bool)
        ensures { self.new ≡ record self.old {
          malformed = min (self.old.malformed + malformed)
              (2 ^ 64 - 1);
          displaced = min (self.old.displaced + displaced) (2 ^ 64 - 1);
          full = self.old.full
              || full;
        } }
    {
        self.malformed = self.malformed.saturating_add(malformed);
        self.displaced = self.displaced.saturating_add(displaced);
        self.full = self.full || full;
    }

    /// What is due, each kind at its index. `silent` is the first node whose silence is due to be reported,
    /// `ended` the first whose silence has ended.
    fn due(
        &self,
        now: u64,
        known: u32,
        newest: u64,
        silent: Option<(NodeId, u64)>,
        ended: Option<(NodeId, u64)>,
    ) -> [Option<Note>; 14]
        ensures { result ≡ due_notes self.now now known newest silent ended }
    {
        let majority = self.listening.majority;
        let (alone, again) = (majority.length(now) / 1000, majority.ended / 1000);
        let (malformed, displaced) = (self.malformed, self.displaced);
        [
            opened(self.votes),
            self.muteness.beginning(),
            self.muteness.end(known),
            due_if(
                self.catching.has_settled(now, known),
                Note::CaughtUp { instance: known },
            ),
            due_if(majority.is_long(now), Note::NoMajority { seconds: alone }),
            counted(majority.ended, Note::Majority { seconds: again }),
            silence(silent),
            hearing(ended),
            counted(malformed, Note::Malformed { count: malformed }),
            counted(displaced, Note::Displaced { count: displaced }),
            due_if(self.full, Note::Full),
            self.publishing.release(known, newest),
            self.publishing.beginning(known, newest),
            self.hours.figures(known, newest),
        ]
    }

    /// Notes that this was reported of a node, a majority or a start.
    fn settle(&mut self, now: u64, note: &Note)
        ensures { self.new ≡ settled self.old now note.now }
    {
        match *note {
            Note::Opened { .. } => self.votes = None,
            Note::Mute { instance } => self.muteness = Muteness::Said { floor: instance },
            Note::NoLongerMute => self.muteness = Muteness::Over,
            Note::CaughtUp { .. } => self.catching = Catching::Done,
            Note::NoMajority { .. } => {
                self.catching = Catching::Alone;
                self.listening.majority = self.listening.majority.told(now);
            }
            Note::Majority { .. } => {
                self.listening.majority = self.listening.majority.ended_told();
            }
            Note::Silent { node, .. } => self.listening.tell_silent(node, now),
            Note::Heard { node, .. } => self.listening.tell_ended(node),
            Note::Malformed { .. } => self.malformed = 0,
            Note::Displaced { .. } => self.displaced = 0,
            Note::Full => self.full = false,
            Note::Published { release, instance } => {
                self.publishing = Publishing::released(release, instance);
            }
            Note::Began { .. } => self.publishing = self.publishing.begun(),
            Note::Figures { .. } => self.hours = Hours::said(now),
        }
    }

    /// The first of these that may be reported, if any. It is no longer due then.
    fn say(&mut self, now: u64, due: [Option<Note>; 14]) -> Option<Note>
        ensures { SaysOf self.old now due result self.new }
    {
        for kind in 0..14 {
            if let Some(note) = may_say(self.said[kind], now, due[kind]) {
                self.settle(now, &note);
                self.said[kind] = Some(now);
                return Some(note);
            }
        }
        None
    }

    /// Whether the figures of the hour are to be taken.
    pub fn is_hour(&self, now: u64) -> bool
        ensures { result ≡ is_hour self.now.hours now }
    {
        self.hours.is_hour(now)
    }

    /// The figures of the hour were taken.
    pub fn figure(&mut self, figures: Figures)
        ensures { self.new ≡ record self.old { hours = record self.old.hours { taken = Some figures } } }
    {
        self.hours = self.hours.taken(figures);
    }

    /// The next line, if one is due: at most one of each kind in a second. `known` values are known, and
    /// `newest` is the newest release. A line that was reported is no longer due.
    pub fn next(&mut self, now: u64, known: u32, newest: u64) -> Option<Note>
        ensures { Says self.old now known newest result self.new }
    {
        let silent = self.listening.first_silent(now);
        let ended = self.listening.first_ended();
        self.say(now, self.due(now, known, newest, silent, ended))
    }
}

/// The line, if none of its kind was ever reported, or a second has passed since the last one.
fn may_say(said: Option<u64>, now: u64, due: Option<Note>) -> Option<Note>
    ensures { result ≡ (if is_free said now then due else None) }
{
    match said {
        Some(said) if now.saturating_sub(said) < EACH => None,
        _ => due,
    }
}

fn opened(votes: Option<u32>) -> Option<Note>
    ensures { result ≡ opened_of votes }
{
    match votes {
        Some(votes) => Some(Note::Opened { votes }),
        None => None,
    }
}

fn due_if(is: bool, note: Note) -> Option<Note>
    ensures { result ≡ due_if is note }
{
    if is { Some(note) } else { None }
}

fn counted(count: u64, note: Note) -> Option<Note>
    ensures { result ≡ counted count note }
{
    if count == 0 { None } else { Some(note) }
}

fn silence(silent: Option<(NodeId, u64)>) -> Option<Note>
    ensures { result ≡ silent_of silent }
{
    match silent {
        Some((node, millis)) => Some(Note::Silent {
            node,
            seconds: millis / 1000,
        }),
        None => None,
    }
}

fn hearing(ended: Option<(NodeId, u64)>) -> Option<Note>
    ensures { result ≡ heard_of ended }
{
    match ended {
        Some((node, millis)) => Some(Note::Heard {
            node,
            seconds: millis / 1000,
        }),
        None => None,
    }
}
