//! The law of sketches. The function does nothing: its contract is the law.
ghost use Rattle.ck_path.specs.Laws.{SketchesShowPaths};

/// A search is told of a table by its sketches alone. In a lawful whole there is no path in the
/// sketches exactly where no displacement makes room for the name: the entry that a partial stands
/// for leads where the partial says.
pub fn law_of_sketches<V>()
    ensures { SketchesShowPaths V }
{}
