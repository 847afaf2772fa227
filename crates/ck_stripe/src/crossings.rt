//! That a stripe crosses threads where its keys and values do.
use crate::Stripe;
use ck_key::TableKey;

fn cross<K: TableKey + Send + Sync, V: Send + Sync>(stripe: &Stripe<K, V>) {
    is_send_and_sync(stripe);
}

fn is_send_and_sync<X: Send + Sync>(_value: &X) {}
