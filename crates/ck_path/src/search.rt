//! The search.
//!
//! A random walk through the table, as cuckoo hashing first had, may move hundreds of entries. A
//! breadth-first search finds a shortest path, which has at most four hops where it looks at 682
//! buckets of four slots, so that few entries move and few locks are taken (Li, Andersen, Kaminsky,
//! Freedman 2014, "Algorithmic Improvements for Fast Concurrent Cuckoo Hashing").
ghost use Rattle.std.specs.Prelude.{◌≡◌, ℕ, ◌+◌, ◌^◌, ◌<◌, ◌≤◌, ◌↔◌, ◌++◌, List, Option, Bool, true, Some, None, IsTrue, IsSome, IfSome, IfNone, MatchOption, option_map, length};
ghost use Rattle.arrayvec.specs.ArrayVec.{array_vec_len};
ghost use Rattle.ck_model.specs.Sketches.{Sketch, has_free};
ghost use Rattle.ck_path.specs.Queue.{wanted, steps_left, root_node, children};

use crate::Path;
use crate::node::Node;
use crate::path::MAX_HOPS;
use arrayvec::ArrayVec;
use ck_key::alternate;
use std::marker::Model;

/// The most nodes that a search queues: 2 * (1 + 4 + 16 + 64 + 256).
const MAX_NODES: usize = 682;

/// A breadth-first search from the two buckets of a key. The caller looks at the buckets: while one
/// is wanted, it feeds the sketch of that bucket, until it gets a path or no bucket is wanted.
///
/// The queue is part of the value, 5.5 KB: nothing is allocated, and nothing is copied on the way.
#[derive(Drop)]
pub struct Search {
    power: u32,
    taken: usize,
    nodes: ArrayVec<Node, MAX_NODES>,
}

impl Model for Search {
    ghost use Rattle.ck_path.specs.Queue.{Queue, IsSoundQueue};

    ghost Value = { Queue };

    ghost view = { λ s. record { power = s.power; nodes = s.nodes.items; taken = s.taken } };

    ghost invariant = { λ s. IsSoundQueue
        (record { power = s.power; nodes = s.nodes.items; taken = s.taken }) };
}

impl Search {
    ghost use Rattle.ck_path.specs.Progress.{IsSearchFed, IsSearchOver};
    ghost use Rattle.ck_path.specs.Route.{IsLinked, IsSeen, IsShortestPath};
    ghost use Rattle.ck_model.specs.Sketches.{HasNoSketchPath};

    /// A search in a table of 2^p buckets from the first bucket `b1` of a key and then its
    /// alternate `b2`, which may be the same.
    ///
    /// What a caller is to know of the path later it carries through the search, as an invariant:
    /// `fed`, for sketches of which each passes a test, or `over`, for those of one table that
    /// doesn't change.
    pub fn start(p: u32, b1: u64, b2: u64) -> Search
        requires power { p ≤ 26 }
        requires first { b1 < 2 ^ p }
        requires second { b2 < 2 ^ p }
        ensures power { result.power ≡ p }
        ensures fed { (seen : ℕ → Sketch → Bool) → IsSearchFed seen p b1 b2 result }
        ensures over { (sketches : ℕ → Sketch) → IsSearchOver p sketches b1 b2 result }
    {
        let mut nodes = ArrayVec::new();
        nodes.push(root(b1));
        if b2 != b1 {
            nodes.push(root(b2));
        }
        Search {
            power: p,
            taken: 0,
            nodes,
        }
    }

    /// The bucket whose sketch is wanted next, or `None` where the search is over: a path was
    /// given, or all buckets that can be reached by at most four hops were full.
    pub fn next_bucket(&self) -> Option<u64>
        ensures value { result ≡ wanted self.now }
        ensures below { IfSome result (λ b. b < 2 ^ self.now.power) }

        // Where a search that was fed the sketches of a table is over with no path, there is none.
        ensures none { (p b1 b2 : ℕ) (sketches : ℕ → Sketch)
            → IsSearchOver p sketches b1 b2 self.now
            → IfNone result (HasNoSketchPath p sketches b1 b2) }
    {
        if self.taken < self.nodes.len() {
            Some(u64::from(self.nodes[self.taken].bucket))
        } else {
            None
        }
    }

    /// Takes the sketch of the wanted bucket. Where it has a free slot, the search is over and the
    /// path to that bucket is given. Where it is full, the other buckets of its entries are queued,
    /// in the order of the slots, unless the path would get more than four hops.
    pub fn feed(&mut self, sketch: [Option<u8>; 4]) -> Option<Path>
        requires { IsSome (wanted self.old) }
        ensures found { IsSome result ↔ IsTrue (has_free sketch) }
        ensures over { IfSome result (λ _. wanted self.new ≡ None) }
        ensures power { self.new.power ≡ self.old.power }
        ensures fewer { steps_left self.new < steps_left self.old }

        // Whatever was fed, the path leads through buckets of the table, and each hop is as in a
        // sketch that was fed.
        ensures linked { IfSome result IsLinked }
        ensures seen { (p b1 b2 : ℕ) (seen : ℕ → Sketch → Bool) → IsSearchFed seen p b1 b2 self.old
            → option_map (λ b. seen b sketch) (wanted self.old) ≡ Some true
            → MatchOption result (IsSearchFed seen p b1 b2 self.new) (IsSeen seen p b1 b2) }

        // Where all sketches are those of one table, the path is a shortest one in it.
        ensures path { (p b1 b2 : ℕ) (sketches : ℕ → Sketch)
            → IsSearchOver p sketches b1 b2 self.old
            → option_map sketches (wanted self.old) ≡ Some sketch
            → MatchOption result (IsSearchOver p sketches b1 b2 self.new)
            (IsShortestPath p sketches b1 b2) }
    {
        let node = self.nodes[self.taken];
        if has_free(&sketch) {
            self.taken = self.nodes.len();
            return Some(Path::to(&self.nodes, self.power, node));
        }
        if usize::from(node.depth) < MAX_HOPS {
            queue_others(&mut self.nodes, self.power, self.taken as u8, node, &sketch);
        }
        self.taken += 1;
        None
    }
}

fn root(bucket: u64) -> Node
    requires { bucket < 2 ^ 32 }
    ensures { result ≡ root_node bucket }
{
    Node {
        bucket: bucket as u32,
        parent: 0,
        slot: 0,
        partial: 0,
        depth: 0,
    }
}

fn has_free(sketch: &[Option<u8>; 4]) -> bool
    ensures { result ≡ has_free sketch.now }
{
    sketch[0].is_none() || sketch[1].is_none() || sketch[2].is_none() || sketch[3].is_none()
}

/// Queues the other buckets of the entries of `node`, which stands at `parent` in the queue. An
/// entry whose other bucket is the same one leads nowhere.
fn queue_others(
    nodes: &mut ArrayVec<Node, MAX_NODES>,
    power: u32,
    parent: u8,
    node: Node,
    sketch: &[Option<u8>; 4],
)
    requires power { power ≤ 26 }
    requires room { array_vec_len nodes.old + 4 ≤ 682 }
    requires above { node.depth < 4 }
    ensures { nodes.new.items ≡ nodes.old.items ++ children power parent node 0 sketch.now }
{
    for (slot, entry) in sketch.iter().enumerate() {
        if let Some(partial) = entry {
            let bucket = alternate(power, *partial, u64::from(node.bucket)) as u32;
            if bucket != node.bucket {
                nodes.push(Node {
                    bucket,
                    parent,
                    slot: slot as u8,
                    partial: *partial,
                    depth: node.depth + 1,
                });
            }
        }
    }
}
