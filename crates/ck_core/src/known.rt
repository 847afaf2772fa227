//! A view, for a type to name.
ghost use base.Fml.{ftrue};
ghost use Rattle.ck_core.specs.declared.view.View.{View};

use std::marker::{Model, PhantomData};

/// A view as contracts see it, for a type of the table to name. It has no bytes and names no type of
/// the view's parts, so a program that drops a table proves nothing of theirs.
pub struct Known<V> {
    values: PhantomData<V>,
    ghost seen: { View V },
}

impl<V> Model for Known<V> {
    ghost Value = { View V };

    ghost view = { λ k. k.seen };

    ghost also_owns = { λ _. ftrue };
}
