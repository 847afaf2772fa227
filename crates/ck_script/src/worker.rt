//! The workers of a run.
ghost use Rattle.std.specs.Prelude.{All, IfOk};
ghost use Rattle.std.specs.List.{AllZip};
ghost use Rattle.ck_script.specs.Jobs.{HasWorked, IsReadyJob};

use crate::calls::answer_of;
use crate::gate::Gate;
use crate::job::{Done, Job};
use ck_format::WrittenKey;
use std::alloc::{AllocError, Global};
use std::thread::{Threads, map_vec};

// Makes the calls of a worker by its handle, and notes their answers.
fn work<K: WrittenKey, G: Gate>(alloc: Global, gate: &G, job: Job<K>) -> Done<K>
    requires { IsReadyJob job }
    ensures { HasWorked K.hash K.name job result }
{
    let Job {
        worker,
        mut handle,
        commands,
        mut answers,
    } = job;
    for command in commands {
        let line = answers.len() as u64 + 1;
        gate.before(worker, line);
        let (answer, back) = answer_of(alloc, handle, command);
        handle = back;
        answers.push_reserved(answer);
        gate.after(worker, line);
    }
    Done { answers, handle }
}

/// Does all jobs, each in a thread of its own.
pub fn work_all<T: Threads + Sync, K: WrittenKey + Send, G: Gate>(
    rt: &T,
    alloc: Global,
    gate: &G,
    jobs: Vec<Job<K>>,
) -> Result<Vec<Done<K>>, AllocError>
    requires { All IsReadyJob jobs.items }
    ensures { IfOk result (λ dones. AllZip (HasWorked K.hash K.name) jobs.items dones.items) }
{
    let work_on = |job: Job<K>| -> Done<K>
        requires { IsReadyJob job }
        ensures { HasWorked K.hash K.name job result }
    { work(alloc, gate, job) };
    map_vec(rt, jobs, &work_on)
}
