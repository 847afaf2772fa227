//! A path that a search found.
ghost use Rattle.std.specs.Prelude.{◌≡◌, ℕ, ◌<◌, ◌≤◌, Some, slice_get, reverse};
ghost use Rattle.ck_path.specs.Queue.{AreSound};
ghost use Rattle.ck_path.specs.Trace.{IsTrace};

use crate::node::Node;
use arrayvec::ArrayVec;
use ck_model::path_hop::PathHop;
use std::marker::Model;

/// The most hops of a path.
pub const MAX_HOPS: usize = 4;

/// A way to make room in a bucket of a key: hops from there, each from a full bucket to the other
/// bucket of an entry, and at their end a bucket with a free slot. With no hop that is the key's
/// bucket itself.
///
/// It says what was seen. Where others may have changed the buckets since, each hop has to be
/// looked at again when it is carried out.
#[derive(Drop)]
pub struct Path {
    power: u32,
    end: u64,
    // From the end backwards: so they are found, on the way up from the last node, and so they are
    // carried out.
    hops: ArrayVec<PathHop, MAX_HOPS>,
}

impl Model for Path {
    ghost use Rattle.std.specs.Prelude.{reverse};
    ghost use Rattle.ck_path.specs.Route.{Route, IsLinked};

    ghost Value = { Route };

    ghost view = { λ p. record { power = p.power; hops = reverse p.hops.items; end = p.end } };

    ghost invariant = { λ p. IsLinked
        (record { power = p.power; hops = reverse p.hops.items; end = p.end }) };
}

impl Path {
    ghost use Rattle.ck_path.specs.Route.{IsLinked};

    /// The path from the root above `last` to the bucket of `last`.
    pub(crate) fn to(nodes: &[Node], power: u32, last: Node) -> Path
        requires power { power ≤ 26 }
        requires each { AreSound power nodes.now }
        requires last { (k : ℕ) × (slice_get nodes.now k ≡ Some last) }
        ensures power { result.power ≡ power }
        ensures end { result.end ≡ last.bucket }
        ensures trace { IsTrace nodes.now result.hops last }
    {
        let mut hops = ArrayVec::new();
        let mut node = last;
        while node.depth > 0 {
            let parent = nodes[usize::from(node.parent)];
            hops.push(PathHop {
                bucket: u64::from(parent.bucket),
                slot: usize::from(node.slot),
                partial: node.partial,
            });
            node = parent;
        }
        Path {
            power,
            end: u64::from(last.bucket),
            hops,
        }
    }

    /// The power at which the search was started: the table had 2^power buckets.
    pub fn power(&self) -> u32
        ensures value { result ≡ self.now.power }
        ensures linked { IsLinked self.now }
    {
        self.power
    }

    /// The bucket at the end, in which a free slot was seen: the first hop to be carried out goes
    /// there.
    pub fn end(&self) -> u64
        ensures { result ≡ self.now.end }
    {
        self.end
    }

    /// The hops, at most four, in the order in which they are carried out: the last one of the path
    /// first, and each goes to the bucket that the hop before it has left. So each finds a free
    /// slot, and no entry is without a bucket at any moment.
    pub fn hops_from_end(&self) -> &[PathHop]
        ensures { result.now ≡ reverse self.now.hops }
    {
        self.hops.as_slice()
    }
}
