//! Which floor the reaches of others give.

use crate::comparing::same;
use server_floor::{FloorFault, read_floor};
use site_ids::Cluster;
use std::alloc::Global;
use std::process::Abort;

/// How many nodes there are, in whose place a record is made, the given reaches; and the floor, or why there
/// is none.
type Row = (u8, u8, &'static [&'static str], Result<u32, FloorFault>);

const ROWS: &[Row] = &[
    (3, 1, &["2:57", "3:60"], Ok(124)),
    (3, 2, &["3:0", "1:0"], Ok(64)),
    (3, 3, &["1:999936", "2:7"], Ok(1_000_000)),
    (4, 4, &["1:1", "2:2", "3:3"], Ok(67)),
    (5, 1, &["2:9", "4:8", "5:70"], Ok(134)),
    (5, 1, &["5:1", "4:2", "3:3", "2:4"], Ok(68)),
    (9, 9, &["1:1", "2:1", "3:1", "4:1", "5:1"], Ok(65)),
    // too few: the lost node counts for the group's size, and is not one of those asked
    (3, 1, &["2:57"], Err(FloorFault::TooFew)),
    (4, 1, &["2:57", "3:57"], Err(FloorFault::TooFew)),
    (5, 1, &["2:9", "3:9"], Err(FloorFault::TooFew)),
    (9, 1, &["2:1", "3:1", "4:1", "5:1"], Err(FloorFault::TooFew)),
    (2, 1, &["2:57"], Err(FloorFault::TooFew)),
    // too far
    (3, 1, &["2:999937", "3:0"], Err(FloorFault::TooFar)),
    (
        3,
        1,
        &["2:0", "3:18446744073709551615"],
        Err(FloorFault::TooFar),
    ),
    // not another node of the group
    (3, 1, &["1:57", "2:57"], Err(FloorFault::NotAnother)),
    (3, 1, &["2:57", "4:57"], Err(FloorFault::NotAnother)),
    (1, 1, &["1:57"], Err(FloorFault::NotAnother)),
    // one twice
    (3, 1, &["2:57", "2:58"], Err(FloorFault::Twice)),
    (5, 1, &["2:1", "3:1", "2:1"], Err(FloorFault::Twice)),
    // not a node and a reach
    (3, 1, &["2:57", "3"], Err(FloorFault::NotTold)),
    (3, 1, &["2:57", ""], Err(FloorFault::NotTold)),
    (3, 1, &["2:57", "3:"], Err(FloorFault::NotTold)),
    (3, 1, &["2:57", ":57"], Err(FloorFault::NotTold)),
    (3, 1, &["2:57", "3:+7"], Err(FloorFault::NotTold)),
    (3, 1, &["2:57", "3:07"], Err(FloorFault::NotTold)),
    (3, 1, &["2:57", "03:7"], Err(FloorFault::NotTold)),
    (3, 1, &["2:57", "0:7"], Err(FloorFault::NotTold)),
    (3, 1, &["2:57", "10:7"], Err(FloorFault::NotTold)),
    (3, 1, &["2:57", "3:7 "], Err(FloorFault::NotTold)),
    (3, 1, &["2:57", "3:7:8"], Err(FloorFault::NotTold)),
    (
        3,
        1,
        &["2:57", "3:18446744073709551616"],
        Err(FloorFault::NotTold),
    ),
    (3, 1, &["2:57,3:60"], Err(FloorFault::NotTold)),
];

fn given(rt: &impl Abort, alloc: Global, row: Row) -> Result<u32, FloorFault> {
    let (size, id, words, _) = row;
    let cluster = Cluster::new(size).expect(rt, "a cluster");
    let me = cluster.node(id).expect(rt, "a node");
    match read_floor(alloc, cluster, me, words) {
        Ok(floor) => Ok(floor.number()),
        Err(fault) => Err(fault),
    }
}

#[test]
fn reaches_of_a_majority_give_a_floor(rt: HostRuntime) {
    for &row in ROWS {
        same(&rt, (row.2, given(&rt, rt.alloc(), row)), (row.2, row.3));
    }
}
