//! A store of sessions: keys of its own, and a struct as value, changed by a closure, with an expiry.
#![tactic(auto)]

mod key;

use anyhow::Result;
use cuckoo_map::{Fault, Handle, LockedHandle, Settings};
use key::SessionKey;
use std::alloc::Global;

/// A session ends when it wasn't used for so long.
const LIFETIME: u64 = 50;

#[derive(Clone, Copy)]
struct Session {
    seen: u64,
    hits: u32,
}

type Client = Handle<SessionKey, Session>;

type Store = LockedHandle<SessionKey, Session>;

/// Opens the session where it isn't open, and else notes that it was used.
fn touch(client: &mut Client, key: SessionKey, now: u64) -> Result<(), Fault> {
    let fresh = Session { seen: now, hits: 1 };
    let used = |session: Session| Session {
        seen: session.seen.max(now),
        hits: session.hits.saturating_add(1),
    };
    client.upsert(key, used, fresh)?;
    Ok(())
}

/// What a client is asked for.
fn serve(client: &mut Client, device: u32) -> Result<(), Fault> {
    for now in 0..100u32 {
        for step in 0..8u32 {
            let key = SessionKey {
                user: now * 7 + step * 3,
                device,
            };
            touch(client, key, u64::from(now))?;
        }
    }
    Ok(())
}

/// Ends each session that wasn't used lately.
fn sweep(store: &mut Store, now: u64) {
    store.retain(|_key: &SessionKey, session: &Session| {
        session.seen.saturating_add(LIFETIME) >= now
    });
}

/// Serves two devices, and then sweeps the store. Tells how many sessions are left.
fn run(alloc: Global) -> Result<u64, Fault> {
    let mut clients = Handle::open(alloc, Settings::for_keys(1000, 1))?;
    let Some(mut client) = clients.pop() else {
        unreachable!()
    };
    serve(&mut client, 0)?;
    serve(&mut client, 1)?;
    let mut store = client.lock()?;
    sweep(&mut store, 100);
    let left = store.len();
    store.unlock();
    Ok(left)
}

fn main(rt: HostRuntime) -> Result<()> {
    let left = run(rt.alloc())?;
    println!(rt; "{left} sessions were used lately")?;
    Ok(())
}
