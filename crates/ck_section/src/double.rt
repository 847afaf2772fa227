//! The doubling of all stripes of a table.
ghost use Rattle.std.specs.Prelude.{◌≡◌, ℕ, ◌<◌, OnOk, OnErr, length};
ghost use Rattle.ck_stripe.specs.Stripes.{stripe_at, HaveNoSpare, shrunk_stripes, reserved_stripes, doubled_stripes};
ghost use Rattle.ck_stripe.specs.Tables.{AreSettled, IsTable};
ghost use Rattle.ck_section.specs.Doublings.{AreReserved, DoublesEach, Grows};

use ck_key::TableKey;
use ck_stripe::{Grower, Held, Stripe, one_stripe};
use std::alloc::AllocError;

/// Doubles a table of 2^s stripes. The memory for all is taken first, from what the grower has as
/// far as that goes, else by one request a stripe. Where one is refused, what the stripes took is freed, so
/// that a refused request leaves all as it was.
pub fn double_all<K: TableKey + Drop, V: Drop, H: Held<Stripe<K, V>>>(
    held: &mut H,
    s: u32,
    grower: &mut Grower<K, V>,
) -> Result<(), AllocError>
    requires table { IsTable s (H.stripes held.old) }
    requires settled { AreSettled (H.stripes held.old) }
    requires below { (stripe_at (H.stripes held.old) 0).content.power < 26 }
    ensures table { IsTable s (H.stripes held.new) }
    ensures kept { OnErr result (H.stripes held.new ≡ H.stripes held.old) }
    ensures doubled { OnOk result (DoublesEach K.hash (H.stripes held.old) (H.stripes held.new)) }
    ensures grown { OnOk result (Grows K.hash s (H.stripes held.old) (H.stripes held.new)) }
    ensures stays { H.stays held.old held.new }
{
    let count = 1usize << s;
    reserve_all(held, count, grower)?;
    raise_all(held, count);
    Ok(())
}

// Takes the memory for a doubling of each of the `count` stripes that are held, or of none.
fn reserve_all<K: TableKey + Drop, V: Drop, H: Held<Stripe<K, V>>>(
    held: &mut H,
    count: usize,
    grower: &mut Grower<K, V>,
) -> Result<(), AllocError>
    requires count { length (H.stripes held.old) ≡ count }
    requires settled { AreSettled (H.stripes held.old) }
    requires no_spare { HaveNoSpare (H.stripes held.old) }
    ensures reserved { OnOk result
        (H.stripes held.new ≡ reserved_stripes (H.stripes held.old)) }
    ensures kept { OnErr result (H.stripes held.new ≡ H.stripes held.old) }
    ensures stays { H.stays held.old held.new }
{
    for i in 0..count {
        if let Err(refused) = one_stripe::reserve_double(held, i, grower) {
            shrink_all(held);
            return Err(refused);
        }
    }
    Ok(())
}

// Gives back what the held stripes have reserved.
fn shrink_all<K: TableKey + Drop, V: Drop, H: Held<Stripe<K, V>>>(held: &mut H)
    requires { AreSettled (H.stripes held.old) }
    ensures shrunk { H.stripes held.new ≡ shrunk_stripes (H.stripes held.old) }
    ensures stays { H.stays held.old held.new }
{
    for t in 0..held.count() {
        one_stripe::shrink_to_fit(held, t);
    }
}

// Raises the power of each of the `count` stripes that are held by one.
fn raise_all<K: TableKey + Drop, V: Drop, H: Held<Stripe<K, V>>>(held: &mut H, count: usize)
    requires count { length (H.stripes held.old) ≡ count }
    requires settled { AreSettled (H.stripes held.old) }
    requires reserved { AreReserved (H.stripes held.old) }
    requires below { (i : ℕ) → i < count → (stripe_at (H.stripes held.old) i).content.power < 26 }
    ensures doubled { H.stripes held.new ≡ doubled_stripes K.hash (H.stripes held.old) }
    ensures stays { H.stays held.old held.new }
{
    for t in 0..count {
        one_stripe::double(held, t);
    }
}
