//! What a program may conclude from the contracts of its calls. The functions do nothing: their
//! contracts are the laws. An example stands by itself: `ledger`, a handle as a plain map.
//!
//! The contract of a call says which entry the history of the table has more (`Replied`). These
//! laws say what that means for the plain map: a handle without others (`IsSole`) makes a call, and
//! then the map that it had (`HasMap`) has gone by the call (`Maps`). A proof takes a law by its
//! name in `proofs`: `Rattle.ck_laws.proofs.Alone.{found}` is that of `find`. So is proved what
//! `ledger::value_of` promises:
//!
//! ```text
//! returns-clause-found c = found (c.args.account ∷ []) c.args.own.now c.find.new.self
//!     c.in-Ok.value c.requires c.in-Ok.ensures.answered
//! ```
#![tactic(auto)]

pub mod ledger;

ghost use Rattle.ck_model.specs.Promise.{IsLegal};
ghost use Rattle.ck_laws.specs.Laws.{RepliesAreSteps, RepliesFollowOthers};
ghost use Rattle.ck_laws.specs.Laws.{FindsRead, InsertsBind, InsertsKeep, AssignsBind, UpdatesBind, UpdatesKeep};
ghost use Rattle.ck_laws.specs.Laws.{ChangesBind, ChangesKeep, UpsertsBind, UpsertsChange, ErasesUnbind, ChangesOfTwoBind, ChangesOfTwoKeep};
ghost use Rattle.ck_laws.specs.Laws.{BoundIsFound, UnboundIsGone, OthersStay, BeginningsAreOfAll};
ghost use Rattle.ck_laws.specs.Laws.{SoleRepliesAreSteps, SoleMapsStay, SoleFindsRead, SoleAssignsBind, SoleUpsertsBind, SoleErasesUnbind, SoleChangesOfTwoBind};
ghost use Rattle.ck_laws.specs.Laws.{StepsKeepTotals, SoleTransfersKeepTotals, SessionsLeaveTheirMap, SessionsKeepTheirStart, EntriesStandInParts};
ghost use Rattle.ck_laws.specs.Examples.{a_transfer, a_renaming, from_nowhere, two_new, lost_change, found_erased, half_a_transfer, late_session, name_twice, miscounted};

/// An answered call is a step of the plain map. With one caller it is a step of the map that the
/// history left before the call. With several, entries of others lead to another map first, and it
/// is a step of that one.
pub fn law_of_replies<V>()
    ensures alone { RepliesAreSteps V }
    ensures others { RepliesFollowOthers V }
{}

/// What a step on one name, or a change of two, makes of the plain map, by its act and its reply: a
/// find tells what the name is bound to, an erasure tells it and unbinds the name, and so on.
///
/// From `Step m (On k (Assign v)) (Was o) m2` a caller concludes `o ≡ get m k` and
/// `m2 ≡ insert m k v`.
pub fn law_of_acts<V>()
    ensures find { FindsRead V }
    ensures insert { InsertsBind V }
    ensures insert_bound { InsertsKeep V }
    ensures assign { AssignsBind V }
    ensures update { UpdatesBind V }
    ensures update_unbound { UpdatesKeep V }
    ensures change { ChangesBind V }
    ensures change_unbound { ChangesKeep V }
    ensures upsert { UpsertsBind V }
    ensures upsert_bound { UpsertsChange V }
    ensures erase { ErasesUnbind V }
    ensures change_two { ChangesOfTwoBind V }
    ensures change_two_unbound { ChangesOfTwoKeep V }
{}

/// A name that was bound is found with its value, one that was unbound isn't found, and the others
/// are found as before.
pub fn law_of_maps<V>()
    ensures bound { BoundIsFound V }
    ensures unbound { UnboundIsGone V }
    ensures others { OthersStay V }
{}

/// What a call leaves of a handle without others. The handle then has the map that it had, up to
/// the call's own step; where it has seen no more, as after a refused call, it has the same map.
///
/// After `Ok(value) = own.find(&key)` the maps before and after are one, and `value` is what it
/// binds the key's name to.
pub fn law_of_sole_handles<V>()
    ensures step { SoleRepliesAreSteps V }
    ensures same { SoleMapsStay V }
    ensures find { SoleFindsRead V }
    ensures assign { SoleAssignsBind V }
    ensures upsert { SoleUpsertsBind V }
    ensures erase { SoleErasesUnbind V }
    ensures change_two { SoleChangesOfTwoBind V }
{}

/// A step that keeps the sum of the values that it changes keeps the sum of all values: so does a
/// change of two, as a transfer, of a handle without others.
pub fn law_of_totals()
    ensures step { StepsKeepTotals }
    ensures transfer { SoleTransfersKeepTotals }
{}

/// A session that ends leaves the map that the locked table had then, whatever was done to it, if
/// it began with the map that the history left. It did so by the contract of `lock`, and that stays
/// so from call to call.
pub fn law_of_sessions_end<V>()
    ensures leaves { SessionsLeaveTheirMap V }
    ensures start { SessionsKeepTheirStart V }
{}

/// A beginning of a beginning of a history is one of the history: what a caller had seen two calls
/// ago, it has seen still.
pub fn law_of_beginnings<V>()
    ensures { BeginningsAreOfAll V }
{}

/// Each entry of an interleaving, as `Table::close` gives one, stands among the entries of one
/// of its callers. So what holds of all entries of each caller holds of all of the history: where
/// each made transfers alone, there is nothing else.
pub fn law_of_interleavings<V>()
    ensures { EntriesStandInParts V }
{}

/// Worked examples of the definitions: the plain map runs through a transfer and a renaming. It runs
/// through none of the others, in which something was made up, lost, seen by half, seen too late or
/// counted wrongly.
pub fn example_histories()
    ensures transfer { IsLegal a_transfer }
    ensures renaming { IsLegal a_renaming }
    ensures from_nowhere { ¬ (IsLegal from_nowhere) }
    ensures two_new { ¬ (IsLegal two_new) }
    ensures lost { ¬ (IsLegal lost_change) }
    ensures erased { ¬ (IsLegal found_erased) }
    ensures half { ¬ (IsLegal half_a_transfer) }
    ensures late { ¬ (IsLegal late_session) }
    ensures twice { ¬ (IsLegal name_twice) }
    ensures miscounted { ¬ (IsLegal miscounted) }
{}
