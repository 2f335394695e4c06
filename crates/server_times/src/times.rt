//! All times of a server.

ghost use Rattle.std.specs.Prelude.{◌≡◌, ◌↔◌, ℕ, ◌-◌, ◌≤◌, IfSome, IsTrue, Some, None, true, unwrap_or};
ghost use Rattle.server_times.specs.Timing.{asks_after, asks_again_after, long_rest, passed, patience_of};
ghost use Rattle.server_times.specs.Timing.{rest_after};
ghost use Rattle.server_times.specs.declared.times.TheConstants.{STANDARD};

/// All times that a server waits, in one place.
#[derive(Clone, Copy, Debug, PartialEq, Eq, Drop)]
pub struct Times {
    /// Milliseconds without news after which it tries a value again, at least: more at greater numbers
    /// (`Pace`). An option of the command line; the servers of a group may have different ones.
    pub patience: u64,
    /// How many patiences it waits at most after tries that brought no news, `longer` aside (`Ticking`).
    pub growth: u32,
    /// How many patiences longer it waits after each try that a majority answered and that brought no news,
    /// without a bound. A server without a stake always waits at least as many longer (`Ticking`). So servers
    /// far apart do not outbid one another for ever.
    pub longer: u32,
    /// Milliseconds for which a server without a stake leaves the decision to the others, at most, while
    /// their messages come (`Ticking`).
    pub leaving: u64,
    /// Milliseconds between a question to the others that brought nothing and the next one (`LastQuestion`).
    pub asking: u64,
    /// The same while it is quiet.
    pub quiet_asking: u64,
    /// Milliseconds after which a server that is behind, and knows no more than at its last question, asks
    /// again the first time. It waits this much longer each time after that (`LastQuestion`).
    pub again: u64,
    /// How many stretches past the instance of its last question a node is told, at first and at least
    /// (`Course`). A stretch is what one telling covers: 64 instances, or 65,536 bytes of values.
    pub least: u32,
    /// The same, at most.
    pub most: u32,
    /// Milliseconds that a question and its first answer are taken to need, before any answer came
    /// (`Course`).
    pub flight: u64,
    /// Milliseconds after which a question for an earlier instance is no late datagram: the node that asks
    /// began anew (`Course`).
    pub late: u64,
    /// Milliseconds without a message from a node after which it is taken to tell nobody anything
    /// (`Present`). A node asks more often.
    pub silent: u64,
    /// Milliseconds that a value which became known waits to be put on record: others that become known
    /// meanwhile share its seal (`Keeping`). Values that a full block leaves over wait anew.
    pub keeping: u64,
    /// How many values do not wait for others (`Keeping`).
    pub block: u32,
    /// Milliseconds for which a node is sent packets after one came from it: a node that reads none, or no
    /// longer does, gets datagrams (`Peers`).
    pub packets: u64,
    /// The longest time, in milliseconds, between two packets to another node, so that it learns that this
    /// one reads them (`Peers`).
    pub showing: u64,
    /// Milliseconds in a stretch for which it yields to others that try, at most (`Yielding`).
    pub yielding: u64,
    /// After how many steps in which nothing came it is idle: more than a client takes to come again
    /// (`Pace::rest`).
    pub idle: u32,
    /// After how many of them it is quiet: some three seconds (`Pace::rest`).
    pub quiet: u32,
    /// For how many steps in which nothing came, one after another, it does not rest: a client that was
    /// answered comes again at once, and so does another node's message (`Pace::rest`).
    pub eager: u32,
    /// With how many clients at most it goes without rest. With more it rests after each such step: meanwhile
    /// several come, and the next step answers them together (`Pace::rest`).
    pub few: usize,
    /// Microseconds that it rests after a step in which nothing came, while it is busy (`Pace::rest`).
    pub rest: u64,
    /// The same while it is idle.
    pub idle_rest: u64,
    /// The same while it is quiet.
    pub quiet_rest: u64,
    /// Microseconds that it rests at most if it told a node something in this step or in the one before it:
    /// the next telling is near, and no telling wakes a server (`Pace::rest`).
    pub telling_rest: u64,
    /// Milliseconds that a connection is kept open between requests: nothing of the next one came, and
    /// nothing is left to write. RFC 9112, section 9.5, permits to close one at any time.
    pub between_requests: u64,
    /// Milliseconds that a request which has begun, or a response which its client does not read, may go
    /// without a byte that moves.
    pub without_progress: u64,
    /// Milliseconds for which a server that begins leaves requests unanswered, at most, while it knows fewer
    /// values than its record has (`Returning`).
    pub returning: u64,
    /// Milliseconds, at most, for which the server reads and drops what a client still sends after its last
    /// response. So the response is not lost (RFC 9112, section 9.6): a client that reads it closes within
    /// that time (`Linger`).
    pub lingering: u64,
    /// Milliseconds for which a request keeps a seat from others. One that takes longer, because its client
    /// sends or reads slowly, is dropped for another client if all seats are taken (`Seats::make_room`).
    pub keeps_seat: u64,
    /// Milliseconds, after the last bytes of the client, for which a request for a receipt that is not there
    /// yet is left: most values are known by then, and a client asks once.
    pub receipts: u64,
    /// Milliseconds, after the last bytes of the client, for which the responses before such a request are
    /// held back. Most receipts are there by then, and go out together with these responses (`Hold`).
    pub holds: u64,
    /// Milliseconds that a request is given, from its first byte to the last of its response, if that is
    /// limited. An option of the command line.
    pub serve_ms: Option<u64>,
}

/// The times of a command line that names none.
const STANDARD: Times = Times {
    patience: 100,
    growth: 3,
    longer: 10,
    leaving: 15_000,
    asking: 400,
    quiet_asking: 800,
    again: 5,
    least: 2,
    most: 64,
    flight: 20,
    late: 400,
    silent: 2000,
    keeping: 100,
    block: 1024,
    packets: 5000,
    showing: 1000,
    yielding: 50,
    idle: 200,
    quiet: 2000,
    eager: 16,
    few: 4,
    rest: 10,
    idle_rest: 1500,
    quiet_rest: 20_000,
    telling_rest: 500,
    between_requests: 5000,
    without_progress: 1000,
    returning: 2000,
    lingering: 2000,
    keeps_seat: 2000,
    receipts: 100,
    holds: 5,
    serve_ms: None,
};

/// Whether `millis` milliseconds have passed since then, by a clock that never goes back. They have if
/// `since` is `None`.
pub fn has_passed(since: Option<u64>, now: u64, millis: u64) -> bool
    ensures is { result ≡ passed since now millis }
    ensures rule { IsTrue result ↔ IfSome since (λ then. millis ≤ now - then) }
{
    match since {
        Some(since) => now.saturating_sub(since) >= millis,
        None => true,
    }
}

impl Times {
    /// The times of a command line, which may name a patience and a limit for connections.
    pub fn new(patience: Option<u64>, serve_ms: Option<u64>) -> Times
        ensures { result ≡ record STANDARD {
          patience = unwrap_or patience STANDARD.patience;
          serve_ms = serve_ms;
        } }
    {
        Times {
            patience: patience.unwrap_or(STANDARD.patience),
            serve_ms,
            ..STANDARD
        }
    }

    /// How many milliseconds the server of that number waits before its first try: longer at greater numbers,
    /// so that no two try at once.
    pub fn patience_of(self, node: u8) -> u64
        ensures { result ≡ patience_of self node }
    {
        self.patience.saturating_mul(u64::from(node) + 1) / 2
    }

    /// How many milliseconds after a question that brought nothing the next one comes. Nothing came in the
    /// last `empty` steps.
    pub fn asks_after(self, empty: u32) -> u64
        ensures { result ≡ asks_after self empty }
    {
        if empty < self.quiet {
            self.asking
        } else {
            self.quiet_asking
        }
    }

    /// How many milliseconds after a question the next one comes, if the server is behind and knows no more.
    /// `again` questions in a row were for one instance, and nothing came in the last `empty` steps.
    pub fn asks_again_after(self, again: u32, empty: u32) -> u64
        ensures is { result ≡ asks_again_after self again empty }
        ensures bound { result ≤ asks_after self empty }
    {
        let longer = self.again.saturating_mul(u64::from(again) + 1);
        longer.min(self.asks_after(empty))
    }

    /// How many microseconds the server rests after `empty` steps in which nothing came: longer after more of
    /// them.
    fn long_rest(self, empty: u32, clients: usize) -> u64
        ensures { result ≡ long_rest self empty clients }
    {
        if empty < self.eager && clients <= self.few {
            0
        } else if empty < self.idle {
            self.rest
        } else if empty < self.quiet {
            self.idle_rest
        } else {
            self.quiet_rest
        }
    }

    /// How many microseconds the server rests after a step in which nothing came, and `empty` others before
    /// it. `tells` says that it tells somebody something.
    pub fn rest_after(self, empty: u32, tells: bool, clients: usize) -> u64
        ensures is { result ≡ rest_after self empty tells clients }
        ensures longer { (fewer : ℕ) → fewer ≤ empty → self.rest ≤ self.idle_rest
            → self.idle_rest ≤ self.quiet_rest → rest_after self fewer tells clients ≤ result }
        ensures bound { tells ≡ true → result ≤ self.telling_rest }
    {
        let long = self.long_rest(empty, clients);
        if tells {
            long.min(self.telling_rest)
        } else {
            long
        }
    }
}
