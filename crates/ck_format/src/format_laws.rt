//! What holds of the grammar itself.
ghost use Rattle.ck_format.specs.Laws.{FaultlessIsScript, IsOneScript};

/// Bytes have no fault exactly where they are a script, and they are one script at most.
/// The call does nothing: it stands for its contract.
pub fn law_of_scripts()
    ensures faultless { FaultlessIsScript }
    ensures one { IsOneScript }
{}
