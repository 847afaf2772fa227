//! Stripes that a call holds, visited one at a time.
ghost use Rattle.std.specs.Prelude.{◌≡◌, ◌<◌, ℕ, List, length, slice_index_or, slice_set};
ghost use Rattle.ck_stripe.specs.Numbered.{IsSame, IsOneWith};

use crate::stripe::Stripe;
use ck_key::TableKey;

/// One of 2^s, by its number.
pub trait Numbered {
    ghost number: { Self → ℕ };

    ghost s: { Self → ℕ };
}

impl<K: TableKey, V> Numbered for Stripe<K, V> {
    ghost number = { λ t. t.number };

    ghost s = { λ t. t.s };
}

/// What is done to one of the stripes that are held. A closure that takes a stripe is one.
pub trait Visitor<T> {
    type Answer;

    // Where it may come.
    ghost may: { Self → T → Type 0 };

    // What it answers and leaves where it came.
    ghost does: { Self → T → Self.Answer → T → Type 0 };

    fn visit(self, it: &mut T) -> Self::Answer
        requires { may self it.old }
        ensures { does self it.old result it.new };
}

impl<T, R, F: FnOnce(&mut T) -> R> Visitor<T> for F {
    ghost use Rattle.std.specs.Prelude.{◌≡◌};
    ghost use Rattle.std.specs.Borrow.{MutBor};
    ghost use Rattle.std.specs.Fn.{FnOnceReturnsAtMut};

    type Answer = R;

    ghost may = { λ f t. (it : MutBor T) → it.now ≡ t → F.pre f it };

    ghost does = { λ f t r u. FnOnceReturnsAtMut F.FnOnce f t r u };

    #[inline(always)]
    fn visit(self, it: &mut T) -> R {
        self(it)
    }
}

/// Stripes that a call holds, in rising order of their numbers. Stripe `i` is the one at position
/// `i`.
pub trait Held<T: Numbered> {
    ghost stripes: { Self → List T };

    // What no visit changes.
    ghost stays: { Self → Self → Type 0 };

    /// How many stripes are held.
    fn count(&self) -> usize
        ensures { result ≡ length (stripes self.now) };

    /// The number of stripe `i` among those of the table.
    fn number(&mut self, i: usize) -> u32
        requires { i < length (stripes self.old) }
        ensures value { (d : T) → result ≡ T.number (slice_index_or (stripes self.old) i d) }
        ensures same { stripes self.new ≡ stripes self.old }
        ensures stays { stays self.old self.new };

    /// Sends the visitor to stripe `i`.
    fn visit<W: Visitor<T>>(&mut self, i: usize, visitor: W) -> W::Answer
        requires inside { i < length (stripes self.old) }
        requires may { (d : T) → W.may visitor (slice_index_or (stripes self.old) i d) }
        requires keeps { (d : T) (r : W.Answer) (after : T)
            → W.does visitor (slice_index_or (stripes self.old) i d) r after
            → IsSame T.number T.s (slice_index_or (stripes self.old) i d) after }
        ensures visited { (d : T) → W.does visitor (slice_index_or (stripes self.old) i d) result
            (slice_index_or (stripes self.new) i d) }
        ensures others { (d : T) → stripes self.new
            ≡ slice_set (stripes self.old) i (slice_index_or (stripes self.new) i d) }
        ensures stays { stays self.old self.new };

    /// Sends the visitor to stripe `i`, which has bucket `b`, by which it may be found sooner.
    fn visit_bucket<W: Visitor<T>>(&mut self, i: usize, b: u64, visitor: W) -> W::Answer
        requires inside { i < length (stripes self.old) }
        requires own { (d : T) → IsOneWith T.number T.s b (slice_index_or (stripes self.old) i d) }
        requires may { (d : T) → W.may visitor (slice_index_or (stripes self.old) i d) }
        requires keeps { (d : T) (r : W.Answer) (after : T)
            → W.does visitor (slice_index_or (stripes self.old) i d) r after
            → IsSame T.number T.s (slice_index_or (stripes self.old) i d) after }
        ensures visited { (d : T) → W.does visitor (slice_index_or (stripes self.old) i d) result
            (slice_index_or (stripes self.new) i d) }
        ensures others { (d : T) → stripes self.new
            ≡ slice_set (stripes self.old) i (slice_index_or (stripes self.new) i d) }
        ensures stays { stays self.old self.new }
    {
        let _ = b;
        self.visit(i, visitor)
    }

    ghost stays_same: { (s : Self) → stays s s };

    ghost stays_on: { (s t u : Self) → stays s t → stays t u → stays s u };
}
