//! What a worker is given, and what it hands back.
use ck_format::{Answer, Command, Pairs, WrittenKey};
use cuckoo_map::Handle;

/// What a command is answered, on keys of this type.
pub type Told<K> = Answer<Pairs<K>>;

/// What a worker is to do: its number, counted from 1, the handle that makes its calls, its
/// commands, and room for their answers.
#[derive(Drop)]
pub struct Job<K: WrittenKey> {
    pub worker: u32,
    pub handle: Handle<K, u64>,
    pub commands: Vec<Command<K>>,
    pub answers: Vec<Told<K>>,
}

/// What a worker leaves: the answers to its commands, and the handle that made its calls.
#[derive(Drop)]
pub struct Done<K: WrittenKey> {
    pub answers: Vec<Told<K>>,
    pub handle: Handle<K, u64>,
}
