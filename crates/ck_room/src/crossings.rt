//! That places and leases cross threads where their values and their allocator do.
use crate::{Deallocator, LeaseOfTwo, Places};
use std::alloc::Allocator;

fn cross<T: Send + Sync, H, A: Allocator + Send + Sync>(
    places: &Places<T>,
    lease: &LeaseOfTwo<T, H, A>,
    dealloc: &Deallocator<A>,
) {
    is_send_and_sync(places);
    is_send_and_sync(lease);
    is_send_and_sync(dealloc);
}

fn is_send_and_sync<X: Send + Sync>(_value: &X) {}
