//! When a server asks, and when it tells.

ghost use Rattle.std.specs.Prelude.{◌↔◌, IsTrue};
ghost use Rattle.server_pace.specs.Questioning.{Asks, AsksAgain, GoesFurther, HasNews, Tells};

/// What decides whether a server asks.
#[derive(Clone, Copy, Debug, PartialEq, Eq, Drop)]
pub struct Asking {
    /// How many values became known since it asked last.
    pub learned: u32,
    /// Nothing waits to be received.
    pub drained: bool,
    /// Since it asked last, nobody was seen to try a value; or what it tried itself is known, and its record
    /// has more.
    pub calm: bool,
    /// Its record has the value of the first unknown instance, or messages were about instances that nobody
    /// tries before that one is known.
    pub behind: bool,
    /// Others know what it does not.
    pub lacks: bool,
    /// Its time to ask again for what it lacks has passed.
    pub waited: bool,
    /// Its time has passed since it asked last.
    pub passed: bool,
}

impl Asking {
    /// After a question that brought something the next one follows as soon as all of that came, if nobody
    /// tries a value or the server is behind. If a question brought nothing and something is missing, the
    /// server soon asks again. Any other question waits for its time.
    pub fn is_due(self) -> bool
        ensures { IsTrue result ↔ Asks self }
    {
        self.passed || (self.drained && (self.goes_further() || self.asks_again()))
    }

    fn goes_further(self) -> bool
        ensures { IsTrue result ↔ GoesFurther self }
    {
        self.learned != 0 && (self.calm || self.behind)
    }

    fn asks_again(self) -> bool
        ensures { IsTrue result ↔ AsksAgain self }
    {
        self.learned == 0 && self.lacks && self.waited
    }
}

/// What decides whether a node that asked is told something.
#[derive(Clone, Copy, Debug, PartialEq, Eq, Drop)]
pub struct Telling {
    /// There is something to tell about the last of the instances.
    pub full: bool,
    /// It was told nothing since its last question.
    pub asked: bool,
    /// The value of the first of the instances is known, or on record as learned.
    pub known: bool,
    /// There may be votes to tell. The node asked for the first of the instances; and messages were about it
    /// or a later one, or the teller's record had a vote as far on when it began.
    pub votes: bool,
    /// Nobody was seen to try a value since the teller asked last.
    pub calm: bool,
    /// It is the teller's turn.
    pub turn: bool,
}

impl Telling {
    /// Whether there is news: about all the instances; or, for a question, values that are known or on record
    /// as learned, or votes if nobody tries a value.
    fn has_news(self) -> bool
        ensures { IsTrue result ↔ HasNews self }
    {
        self.full || (self.asked && (self.known || (self.calm && self.votes)))
    }

    /// Each node tells its votes, since a majority of them counts. Only the node whose turn it is tells
    /// values.
    pub fn is_due(self) -> bool
        ensures { IsTrue result ↔ Tells self }
    {
        self.has_news() && (!self.known || self.turn)
    }
}
