//! What a server is asked to be.

/// What a command line of `sited` names, each text as it was written.
#[derive(Drop)]
pub struct ServeOptions<'a> {
    /// This server's number.
    pub id: u8,
    /// The record's file.
    pub record: &'a str,
    /// The address of requests.
    pub http: &'a str,
    /// How many laps it takes, by `--rounds`.
    pub rounds: u32,
    /// Whether an empty or missing file becomes an empty record first.
    pub format: bool,
    /// What `--above` says of others' records, each a node and its reach. If there are any, an empty or
    /// missing file becomes a record with a floor.
    pub above: Vec<&'a str>,
    /// Whether it reports on standard error what it sees, and after a fault's line why the fault happened.
    pub verbose: bool,
    /// How many milliseconds it waits, at least, before it tries again; 100 if none are named.
    pub patience: Option<u64>,
    /// How many milliseconds a request may take, from its first byte to the last of its response, if that is
    /// limited.
    pub serve_ms: Option<u64>,
    /// The addresses of servers 1 to n, in order.
    pub peers: Vec<&'a str>,
}
