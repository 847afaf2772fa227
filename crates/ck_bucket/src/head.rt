//! What is kept of a bucket beside its pairs.

ghost use Rattle.std.specs.Prelude.{◌≡◌};
ghost use Rattle.ck_bucket.specs.Rows.{no_entry};

/// What a look reads of a bucket before its pairs: which slots are taken, and the partial of each
/// key. Beside a free slot stands any partial.
#[derive(Clone, Copy)]
pub struct Head {
    pub(crate) partials: [u8; 4],
    pub(crate) taken: [bool; 4],
}

impl Head {
    /// That of a bucket of free slots.
    pub(crate) fn new() -> Head
        ensures { result ≡ no_entry }
    {
        Head {
            partials: [0; 4],
            taken: [false; 4],
        }
    }
}
