//! The text of a run, as one list of bytes.
ghost use Rattle.std.specs.Prelude.{◌≡◌, ◌++◌, codes, decimal, length, map, OnOk, IfOk};
ghost use Rattle.ck_model.specs.Listing.{named};
ghost use Rattle.ck_format.specs.Text.{answer_text, worker_text, workers_text, pairs_text};
ghost use Rattle.ck_format.specs.Text.{output_text, pair_text};
ghost use Rattle.ck_format.specs.Lines.{with_feed};
ghost use Rattle.ck_format.specs.Answers.{answer_on_names, answers_on_names, lists_on_names};

use crate::answer::{Answer, Pairs};
use crate::written_key::WrittenKey;
use itoa::Buffer;
use std::alloc::{AllocError, Global};

// Adds a number in decimal digits.
fn add_number(out: &mut Vec<u8>, n: u64) -> Result<(), AllocError>
    ensures { OnOk result (out.new.items ≡ out.old.items ++ decimal n) }
{
    let mut buffer = Buffer::new();
    out.extend_from_slice(buffer.format(n).as_bytes())
}

// Adds a line of a word and a number.
fn add_count(out: &mut Vec<u8>, word: &[u8], n: u64) -> Result<(), AllocError>
    ensures { OnOk result (out.new.items ≡ out.old.items ++ with_feed (word.now ++ decimal n)) }
{
    out.extend_from_slice(word)?;
    add_number(out, n)?;
    out.extend_from_slice(b"\n")
}

// Adds the line of a pair.
fn add_pair<K: WrittenKey>(out: &mut Vec<u8>, pair: &(K, u64)) -> Result<(), AllocError>
    ensures { OnOk result (out.new.items
        ≡ out.old.items ++ with_feed (pair_text K.keys (named K.name pair.now))) }
{
    let (key, value) = pair;
    key.add_to(out)?;
    add_count(out, b" ", *value)
}

// Adds a line for each pair.
fn add_pairs<K: WrittenKey>(out: &mut Vec<u8>, pairs: &[(K, u64)]) -> Result<(), AllocError>
    ensures { OnOk result (out.new.items
        ≡ out.old.items ++ pairs_text K.keys (map (named K.name) pairs.now)) }
{
    for pair in pairs {
        add_pair(out, pair)?;
    }
    Ok(())
}

// Adds the lines of a list.
fn add_list<K: WrittenKey>(out: &mut Vec<u8>, pairs: &[(K, u64)]) -> Result<(), AllocError>
    ensures { OnOk result (out.new.items ≡ out.old.items
        ++ (with_feed (codes "list " ++ decimal (length pairs.now))
        ++ pairs_text K.keys (map (named K.name) pairs.now))) }
{
    add_count(out, b"list ", pairs.len() as u64)?;
    add_pairs(out, pairs)
}

// Adds the line of an answer, or the lines of a list.
fn add_answer<K: WrittenKey>(out: &mut Vec<u8>, answer: &Answer<Pairs<K>>) -> Result<(), AllocError>
    ensures { OnOk result (out.new.items
        ≡ out.old.items ++ answer_text K.keys (answer_on_names K.name answer.now)) }
{
    match answer {
        Answer::Value(n) => add_count(out, b"v ", *n),
        Answer::Absent => out.extend_from_slice(b"none\n"),
        Answer::Yes => out.extend_from_slice(b"yes\n"),
        Answer::No => out.extend_from_slice(b"no\n"),
        Answer::New => out.extend_from_slice(b"new\n"),
        Answer::Old => out.extend_from_slice(b"old\n"),
        Answer::Set => out.extend_from_slice(b"set\n"),
        Answer::Gone => out.extend_from_slice(b"gone\n"),
        Answer::Count(n) => add_count(out, b"len ", *n),
        Answer::Listed(pairs) => add_list(out, pairs),
        Answer::Busy => out.extend_from_slice(b"busy\n"),
        Answer::Memory => out.extend_from_slice(b"memory\n"),
        Answer::Full => out.extend_from_slice(b"full\n"),
        Answer::Load => out.extend_from_slice(b"load\n"),
    }
}

// Adds the answers of a worker under its number.
fn add_worker<K: WrittenKey>(
    out: &mut Vec<u8>,
    worker: u64,
    answers: &[Answer<Pairs<K>>],
) -> Result<(), AllocError>
    ensures { OnOk result (out.new.items
        ≡ out.old.items ++ worker_text K.keys worker (answers_on_names K.name answers.now)) }
{
    add_count(out, b"worker ", worker)?;
    for answer in answers {
        add_answer(out, answer)?;
    }
    Ok(())
}

// Adds the answers of all workers, in their order.
fn add_workers<K: WrittenKey>(
    out: &mut Vec<u8>,
    workers: &[Vec<Answer<Pairs<K>>>],
) -> Result<(), AllocError>
    ensures { OnOk result (out.new.items
        ≡ out.old.items ++ workers_text K.keys 1 (lists_on_names K.name workers.now)) }
{
    for (index, answers) in workers.iter().enumerate() {
        add_worker(out, index as u64 + 1, answers)?;
    }
    Ok(())
}

/// The text of the answers of each worker, and of the pairs of the map that they left.
pub fn text_of<K: WrittenKey>(
    alloc: Global,
    workers: &[Vec<Answer<Pairs<K>>>],
    pairs: &[(K, u64)],
) -> Result<Vec<u8>, AllocError>
    ensures { IfOk result (λ text. text.items ≡ output_text K.keys
        (lists_on_names K.name workers.now) (map (named K.name) pairs.now)) }
{
    let mut out = Vec::new(alloc);
    add_workers(&mut out, workers)?;
    out.extend_from_slice(b"map\n")?;
    add_pairs(&mut out, pairs)?;
    Ok(out)
}
