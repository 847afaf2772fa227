//! Searches at power 8 that were worked out by hand.
use ck_path::{Path, PathHop, Search};
use std::process::Abort;
use std::test::Fail;

type Sketch = [Option<u8>; 4];

/// Bucket, slot and partial.
type Hop = (u64, usize, u8);

/// An entry of partial 255 has one bucket only at power 8.
const STUCK: Sketch = [Some(255); 4];

/// From bucket 0 by 149, 191 and 235 to 126.
const CHAIN: [(u64, Sketch); 4] = [
    (0, [Some(0); 4]),
    (149, [Some(1); 4]),
    (191, [Some(3); 4]),
    (235, [Some(0); 4]),
];

#[derive(Clone, Copy)]
struct Row<'a> {
    roots: (u64, u64),
    /// The buckets that aren't empty.
    table: &'a [(u64, Sketch)],
    /// The buckets that are wanted, and how often each in a row.
    wanted: &'a [(u64, u32)],
    /// The end of the path and its hops in the order in which they are carried out, if there is
    /// one.
    path: Option<(u64, &'a [Hop])>,
}

fn sketch_of(table: &[(u64, Sketch)], bucket: u64) -> Sketch {
    for (number, sketch) in table {
        if *number == bucket {
            return *sketch;
        }
    }
    [None; 4]
}

fn are_hops(found: &[PathHop], wanted: &[Hop]) -> bool {
    for (hop, (bucket, slot, partial)) in found.iter().zip(wanted) {
        if hop.bucket != *bucket || hop.slot != *slot || hop.partial != *partial {
            return false;
        }
    }
    found.len() == wanted.len()
}

/// Feeds the search until no bucket is wanted.
fn path_of(rt: &impl Abort, row: &Row) -> Result<Option<Path>, Fail> {
    assert!(rt; row.roots.0 < 256 && row.roots.1 < 256);
    let mut search = Search::start(8, row.roots.0, row.roots.1);
    let mut path = None;
    for (bucket, times) in row.wanted {
        for _ in 0..*times {
            assert!(rt; path.is_none());
            let wanted = search.next_bucket().ok_or("over too soon")?;
            assert!(rt; wanted == *bucket);
            path = search.feed(sketch_of(row.table, wanted));
        }
    }
    assert!(rt; search.next_bucket() == None);
    Ok(path)
}

fn check(rt: &impl Abort, row: &Row) -> Result<(), Fail> {
    match (path_of(rt, row)?, row.path) {
        (Some(path), Some((end, hops))) => {
            assert!(rt; path.power() == 8);
            assert!(rt; path.end() == end);
            assert!(rt; are_hops(path.hops_from_end(), hops));
        }
        (path, wanted) => assert!(rt; path.is_some() == wanted.is_some()),
    }
    Ok(())
}

#[test]
fn searches(rt: HostRuntime) -> Result<(), Fail> {
    let chain = CHAIN;
    for row in [
        Row {
            roots: (0, 0),
            table: &chain,
            wanted: &[(0, 1), (149, 4), (191, 16), (235, 64), (126, 1)],
            path: Some((126, &[(235, 0, 0), (191, 0, 3), (149, 0, 1), (0, 0, 0)])),
        },
        // Where 126 is full too, there is no path of at most four hops.
        Row {
            roots: (0, 0),
            table: &[
                (0, [Some(0); 4]),
                (149, [Some(1); 4]),
                (191, [Some(3); 4]),
                (235, [Some(0); 4]),
                (126, STUCK),
            ],
            wanted: &[(0, 1), (149, 4), (191, 16), (235, 64), (126, 256)],
            path: None,
        },
        // The second bucket has a free slot.
        Row {
            roots: (0, 0),
            table: &[(0, [Some(0); 4]), (149, [Some(1), Some(1), Some(1), None])],
            wanted: &[(0, 1), (149, 1)],
            path: Some((149, &[(0, 0, 0)])),
        },
        // Both roots in order, the slots of a bucket in order, then the next level; what leads
        // nowhere queues nothing.
        Row {
            roots: (0, 5),
            table: &[
                (0, [Some(0), Some(1), Some(2), Some(3)]),
                (5, STUCK),
                (149, [Some(255), Some(3), Some(255), Some(255)]),
                (42, STUCK),
                (191, STUCK),
                (84, STUCK),
            ],
            wanted: &[
                (0, 1),
                (5, 1),
                (149, 1),
                (42, 1),
                (191, 1),
                (84, 1),
                (193, 1),
            ],
            path: Some((193, &[(149, 1, 3), (0, 0, 0)])),
        },
    ] {
        check(&rt, &row)?;
    }
    Ok(())
}
