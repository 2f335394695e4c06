//! What is at a gate.

ghost use Rattle.std.specs.Prelude.{◌≡◌, ◌≢◌, ◌<◌, ◌≤◌, ◌^◌, ℕ, ◌∷◌, ◌++◌, MatchOption};
ghost use Rattle.byteorder.specs.Endian.{big_bytes};
ghost use Rattle.site_ids.specs.Ids.{BallotOf, IsBallot, IsInstance};
ghost use Rattle.site_ids.specs.Spans.{IsSpan};
ghost use Rattle.site_ids.specs.Spelling.{ballot_bytes};
ghost use Rattle.durable.specs.Entries.{Entry};
ghost use Rattle.durable.specs.Histories.{IsInRange};
ghost use Rattle.durable.specs.Spelling.{payload as payload_of};
ghost use Rattle.durable.specs.Reading.{IsNext, meaning};

use site_ids::{Ballot, Cluster, Instance, MAX_VALUE};

/// An entry, whose value is still in the file's bytes.
#[derive(Clone, Copy)]
pub(crate) enum EntryRef<'a> {
    Round(u32),
    Promised(Instance, Ballot),
    PromisedSpan(Instance, u8, Ballot),
    Voted(Instance, Ballot, &'a [u8]),
    Learned(Instance, &'a [u8]),
    Floor(Instance),
}

/// What is at a gate.
pub(crate) enum Next<'a> {
    /// The gate isn't open.
    End,
    Damaged,
    /// An entry, and the length of its block.
    Found(EntryRef<'a>, usize),
}

// The ballot that the bytes spell.
fn ballot_of(bytes: &[u8], cluster: Cluster) -> Option<Ballot>
    ensures { MatchOption result ((b : BallotOf) → IsBallot cluster b
        → bytes.now ≢ ballot_bytes b) (λ b. IsBallot cluster b × (bytes.now ≡ ballot_bytes b)) }
{
    let [a, b, c, d, node] = bytes else {
        return None;
    };
    let node = cluster.node(*node)?;
    Ballot::new(u32::from_be_bytes([*a, *b, *c, *d]), node)
}

// The length of an instance.
const INSTANCE: usize = 4;

// The length of an instance and a ballot.
const SLOT: usize = 9;

// The round that the bytes spell.
fn round_of(bytes: &[u8]) -> Option<u32>
    ensures { MatchOption result ((r : ℕ) → 0 < r → r < 2 ^ 32 → bytes.now ≢ big_bytes 4 r) (λ r. (0 < r)
        × (bytes.now ≡ big_bytes 4 r)) }
{
    let [a, b, c, d] = bytes else {
        return None;
    };
    let round = u32::from_be_bytes([*a, *b, *c, *d]);
    if round == 0 { None } else { Some(round) }
}

// The instance and the ballot that the bytes spell.
fn slot_of(bytes: &[u8], cluster: Cluster) -> Option<(Instance, Ballot)>
    ensures { MatchOption result ((i : ℕ) (b : BallotOf) → IsInstance i → IsBallot cluster b
        → bytes.now ≢ big_bytes 4 i ++ ballot_bytes b)
        (λ s. IsInstance s.0 × IsBallot cluster s.1 × (bytes.now ≡ big_bytes 4 s.0 ++ ballot_bytes s.1)) }
{
    let [a, b, c, d, ballot @ ..] = bytes else {
        return None;
    };
    let instance = Instance::new(u32::from_be_bytes([*a, *b, *c, *d]))?;
    Some((instance, ballot_of(ballot, cluster)?))
}

// The instances and the ballot that the bytes spell.
fn span_of(bytes: &[u8], cluster: Cluster) -> Option<(Instance, u8, Ballot)>
    ensures { MatchOption result ((i k : ℕ) (b : BallotOf) → 2 ≤ k → IsSpan i k → IsBallot cluster b
        → bytes.now ≢ big_bytes 4 i ++ k ∷ ballot_bytes b)
        (λ s. (2 ≤ s.1) × IsSpan s.0 s.1 × IsBallot cluster s.2
        × (bytes.now ≡ big_bytes 4 s.0 ++ s.1 ∷ ballot_bytes s.2)) }
{
    let [a, b, c, d, count, ballot @ ..] = bytes else {
        return None;
    };
    let instance = Instance::new(u32::from_be_bytes([*a, *b, *c, *d]))?;
    let ballot = ballot_of(ballot, cluster)?;
    if 2 <= *count && instance.begins_span(*count) {
        Some((instance, *count, ballot))
    } else {
        None
    }
}

// The instance that the bytes spell.
fn instance_of(bytes: &[u8]) -> Option<Instance>
    ensures { MatchOption result ((i : ℕ) → IsInstance i → bytes.now ≢ big_bytes 4 i) (λ i. IsInstance i
        × (bytes.now ≡ big_bytes 4 i)) }
{
    let [a, b, c, d] = bytes else {
        return None;
    };
    Instance::new(u32::from_be_bytes([*a, *b, *c, *d]))
}

// The entry that a payload spells.
fn entry_of(payload: &[u8], cluster: Cluster) -> Option<EntryRef<'_>>
    ensures { MatchOption result ((e : Entry) → IsInRange cluster e → payload.now ≢ payload_of e)
        (λ e. IsInRange cluster (meaning e) × (payload.now ≡ payload_of (meaning e))) }
{
    match payload {
        [1, round @ ..] => Some(EntryRef::Round(round_of(round)?)),
        [2, slot @ ..] => {
            let (instance, ballot) = slot_of(slot, cluster)?;
            Some(EntryRef::Promised(instance, ballot))
        }
        [3, vote @ ..] => {
            if vote.len() < SLOT || SLOT + MAX_VALUE < vote.len() {
                return None;
            }
            let (instance, ballot) = slot_of(&vote[..SLOT], cluster)?;
            Some(EntryRef::Voted(instance, ballot, &vote[SLOT..]))
        }
        [4, span @ ..] => {
            let (first, count, ballot) = span_of(span, cluster)?;
            Some(EntryRef::PromisedSpan(first, count, ballot))
        }
        [5, floor @ ..] => Some(EntryRef::Floor(instance_of(floor)?)),
        [6, learned @ ..] => {
            if learned.len() < INSTANCE || INSTANCE + MAX_VALUE < learned.len() {
                return None;
            }
            let instance = instance_of(&learned[..INSTANCE])?;
            Some(EntryRef::Learned(instance, &learned[INSTANCE..]))
        }
        _ => None,
    }
}

/// What is at a gate, in the bytes from it on.
pub(crate) fn next_entry(bytes: &[u8], cluster: Cluster) -> Next<'_>
    ensures { IsNext cluster bytes.now result }
{
    match bytes {
        [1, a, b, c, d, rest @ ..] => {
            let size = u32::from_be_bytes([*a, *b, *c, *d]) as usize;
            if rest.len() < size {
                return Next::Damaged;
            }
            match entry_of(&rest[..size], cluster) {
                Some(entry) => Next::Found(entry, size + 5),
                None => Next::Damaged,
            }
        }
        [1, ..] => Next::Damaged,
        _ => Next::End,
    }
}
