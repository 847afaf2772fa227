//! Runs scripts.
ghost use Rattle.std.specs.Prelude.{◌≡◌, ◌≤◌, [], All, false, OnOk, IfOk, IfErr, map, vec_len};
ghost use Rattle.std.specs.List.{AllZip, zip};
ghost use Rattle.ck_model.specs.Ranges.{AreInRange};
ghost use Rattle.ck_model.specs.Counting.{counting};
ghost use Rattle.ck_words.specs.Words.{WordsState};
ghost use Rattle.ck_words.specs.Closing.{dealt};
ghost use Rattle.cuckoo_map.specs.Callers.{callers_of, pass_of};
ghost use Rattle.ck_format.specs.Script.{said_in, said_of};
ghost use Rattle.ck_script.specs.Output.{IsOutputOf};
ghost use Rattle.ck_format.specs.Answers.{lists_on_names};
ghost use Rattle.ck_script.specs.Jobs.{IsJob, IsNew, IsReadyJob, HasPass, AreAllHandles, IsTextAtEnd, answers_of, handles_of};
ghost use Rattle.ck_script.specs.Run.{TakesOutput, StopsBy};

use crate::gate::Gate;
use crate::job::{Done, Job, Told};
use crate::worker::work_all;
use ck_format::{Command, Script, Sink, Work, WrittenKey, text_of, write_all};
use ck_model::settings::Settings;
use cuckoo_map::{Handle, OpenFault, Pass};
use std::alloc::{AllocError, Global};
use std::thread::Threads;
use thiserror::Error;

/// Why a run ended early.
#[derive(Clone, Copy, Debug, PartialEq, Eq, Error)]
pub enum RunFault {
    /// There was no memory for the table, the answers or the text; nothing was written.
    #[error("no memory")]
    Memory,
    /// The sink failed when it had taken this many bytes of the text.
    #[error("write failed")]
    Write { written: u64 },
}

// All handles of an empty table.
fn open<K: WrittenKey>(alloc: Global, settings: Settings) -> Result<Vec<Handle<K, u64>>, AllocError>
    requires { AreInRange settings }
    ensures { IfOk result (λ handles. (w : WordsState) × (w.settings ≡ settings)
        × (handles.items ≡ callers_of w (dealt w.table settings (counting 0 settings.callers)))) }
{
    match Handle::open(alloc, settings) {
        Ok(handles) => Ok(handles),
        Err(OpenFault::Memory) => Err(AllocError),
        Err(OpenFault::Settings(_)) => unreachable!(),
    }
}

// The job of one worker, with room for all of its answers.
fn job_of<K: WrittenKey>(
    alloc: Global,
    worker: u32,
    handle: Handle<K, u64>,
    commands: Vec<Command<K>>,
) -> Result<Job<K>, AllocError>
    requires { IsNew handle }
    ensures job { IfOk result (IsJob (handle, commands)) }
    ensures ready { IfOk result IsReadyJob }
{
    let answers = Vec::with_capacity(alloc, commands.len())?;
    Ok(Job {
        worker,
        handle,
        commands,
        answers,
    })
}

// A job for each worker, numbered from 1.
fn jobs_of<K: WrittenKey>(
    alloc: Global,
    handles: Vec<Handle<K, u64>>,
    workers: Vec<Vec<Command<K>>>,
) -> Result<Vec<Job<K>>, AllocError>
    requires few { vec_len workers ≤ 1024 }
    requires new { All IsNew handles.items }
    ensures jobs { IfOk result (λ jobs. AllZip IsJob (zip handles.items workers.items) jobs.items) }
    ensures ready { IfOk result (λ jobs. All IsReadyJob jobs.items) }
{
    let mut jobs = Vec::with_capacity(alloc, workers.len())?;
    for (handle, commands) in handles.into_iter().zip(workers) {
        let worker = jobs.len() as u32 + 1;
        jobs.push(job_of(alloc, worker, handle, commands)?)?;
    }
    Ok(jobs)
}

// The answers of the workers, and their handles.
fn parted<K: WrittenKey>(
    alloc: Global,
    dones: Vec<Done<K>>,
) -> Result<(Vec<Vec<Told<K>>>, Vec<Handle<K, u64>>), AllocError>
    ensures answers { IfOk result (λ r. r.0.items ≡ answers_of dones.items) }
    ensures handles { IfOk result (λ r. r.1.items ≡ handles_of dones.items) }
{
    let mut answers = Vec::with_capacity(alloc, dones.len())?;
    let mut handles = Vec::with_capacity(alloc, dones.len())?;
    for done in dones {
        answers.push(done.answers)?;
        handles.push(done.handle)?;
    }
    Ok((answers, handles))
}

// The passes of these handles.
fn passes_of<K: WrittenKey>(
    alloc: Global,
    handles: Vec<Handle<K, u64>>,
) -> Result<Vec<Pass<K, u64>>, AllocError>
    ensures passes { IfOk result (λ passes. passes.items ≡ map pass_of handles.items) }
    ensures own { OnOk result (All HasPass handles.items) }
{
    let mut passes = Vec::with_capacity(alloc, handles.len())?;
    for handle in handles {
        passes.push_reserved(handle.into_pass());
    }
    Ok(passes)
}

// Ends the table of workers who are done: the text of their answers and of the pairs that they
// left.
fn text_at_end<K: WrittenKey>(
    alloc: Global,
    handles: Vec<Handle<K, u64>>,
    answers: &[Vec<Told<K>>],
) -> Result<Vec<u8>, AllocError>
    requires { (w : WordsState) × AreAllHandles w handles.items }
    ensures { (w : WordsState) → AreAllHandles w handles.items → IfOk result (λ text.
        IsTextAtEnd K.keys w.settings (map pass_of handles.items)
        (lists_on_names K.name answers.now) text.items) }
{
    let mut others = handles;
    let Some(last) = others.pop() else {
        unreachable!()
    };
    let passes = passes_of(alloc, others)?;
    match last.close_table(passes) {
        Ok(pairs) => text_of(alloc, answers, &pairs),
        // No worker holds a stripe any more, so it is memory that was refused.
        Err(_) => Err(AllocError),
    }
}

// What a run of the work writes.
fn output_of<T: Threads + Sync, K: WrittenKey + Send, G: Gate>(
    rt: &T,
    alloc: Global,
    work: Work<K>,
    gate: &G,
) -> Result<Vec<u8>, AllocError>
    ensures { IfOk result (λ text. IsOutputOf (said_in K.keys K.name work) text.items) }
{
    let handles = open(alloc, work.settings)?;
    let jobs = jobs_of(alloc, handles, work.workers)?;
    let dones = work_all(rt, alloc, gate, jobs)?;
    let (answers, handles) = parted(alloc, dones)?;
    text_at_end(alloc, handles, &answers)
}

// What a run of the script writes.
fn text_of_run<T: Threads + Sync, G: Gate>(
    rt: &T,
    alloc: Global,
    script: Script,
    gate: &G,
) -> Result<Vec<u8>, AllocError>
    ensures { IfOk result (λ text. IsOutputOf (said_of script) text.items) }
{
    match script {
        Script::Num(work) => output_of(rt, alloc, work, gate),
        Script::Text(work) => output_of(rt, alloc, work, gate),
    }
}

/// Runs the script on a table of its own, and writes its text: the answers of each worker, and the
/// pairs that the table holds at the end. Each worker is one caller, and works in a thread of its
/// own; a single one works in this thread. Each passes the gate before and after each of its
/// commands.
///
/// All memory is taken before the first write, so a run that finds none has written nothing. A
/// write that fails isn't tried again.
pub fn run<T: Threads + Sync, W: Sink, G: Gate>(
    rt: &T,
    alloc: Global,
    script: Script,
    sink: &mut W,
    gate: &G,
) -> Result<(), RunFault>
    requires { W.has_failed sink.old ≡ false }
    ensures works { OnOk result (W.has_failed sink.new ≡ false) }
    ensures output { OnOk result (TakesOutput script (W.taken sink.old) (W.taken sink.new)) }
    ensures fault { IfErr result
        (λ e. StopsBy script e (W.taken sink.old) (W.taken sink.new) (W.has_failed sink.new)) }
{
    let text = match text_of_run(rt, alloc, script, gate) {
        Ok(text) => text,
        Err(_) => return Err(RunFault::Memory),
    };
    match write_all(sink, &text) {
        Ok(()) => Ok(()),
        Err(written) => Err(RunFault::Write { written }),
    }
}
