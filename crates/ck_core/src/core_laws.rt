//! The laws of the core. The functions do nothing: their contracts are the laws.
ghost use Rattle.std.specs.Prelude.{ℕ, Option};
ghost use Rattle.ck_model.specs.declared.history.Entry.{Entry};
ghost use Rattle.ck_model.specs.declared.history.Reason.{Reason};
ghost use Rattle.ck_model.specs.Promise.{Name};
ghost use Rattle.ck_model.specs.Contents.{Stripes};
ghost use Rattle.ck_core.specs.Steps.Label.{Take, FindHeld, Give, Decide, GiveRest, Renew, Look, Open, Tell, Join};
ghost use Rattle.ck_core.specs.Laws.{LawOfRuns, Keeps, LawOfViews, LawOfReplies, LawOfFindings, LawOfOneCaller, LawOfAnswers, LawOfFollowing, LawOfOtherSteps};
ghost use Rattle.ck_core.specs.Sums.{LawOfSums};
ghost use Rattle.ck_core.specs.Notes.{LawOfContents, LawOfRoomNotes, LawOfGrowths};
ghost use Rattle.ck_core.specs.Order.{LawOfOneHistory, LawOfSeenHistory, LawOfGrowth, LawOfGrowingViews, LawOfDecisions, LawOfRealTime, LawOfTraceOrder};

/// A step by which a caller takes a stripe that is at home keeps the invariant.
pub fn law_of_take<V>()
    ensures { (t : ℕ) → Keeps {V = V} (Take t) }
{}

/// A step by which a caller finds a stripe held keeps the invariant. Another caller holds the
/// stripe, so that with one caller there is no such step.
pub fn law_of_find_held<V>()
    ensures kept { (t : ℕ) → Keeps {V = V} (FindHeld t) }
    ensures another { LawOfFindings V }
    ensures alone { LawOfOneCaller V }
{}

/// A step by which a caller gives back a stripe unchanged keeps the invariant, whatever it says of
/// room.
pub fn law_of_give<V>()
    ensures { (t : ℕ) (g : Option (Name × Reason)) → Keeps {V = V} (Give t g) }
{}

/// A step by which a caller gives back the first stripe after a section, and so decides a call,
/// keeps the invariant: the entry joins the history, and its reply is the plain map's at that
/// point.
pub fn law_of_decide<V>()
    ensures kept { (t : ℕ) (ks : Stripes V) (e : Entry V) → Keeps (Decide t ks e) }
    ensures reply { LawOfReplies V }
{}

/// A step by which a caller gives back a further stripe keeps the invariant.
pub fn law_of_give_rest<V>()
    ensures { (t : ℕ) → Keeps {V = V} (GiveRest t) }
{}

/// A step by which a caller gives back the first stripe after an identity section, as a
/// displacement or a doubling is, keeps the invariant.
pub fn law_of_renew<V>()
    ensures { (t : ℕ) (ks : Stripes V) (g : Option (Name × Reason)) → Keeps (Renew t ks g) }
{}

/// A step by which a caller sees the history and may be told a greater power keeps the invariant.
pub fn law_of_look<V>()
    ensures { (t p : ℕ) → Keeps {V = V} (Look t p) }
{}

/// The steps by which a new caller begins, by which a caller tells what it has seen, and by which a
/// caller joins another view to its own keep the invariant.
pub fn law_of_splits<V>()
    ensures opening { Keeps {V = V} Open }
    ensures telling { Keeps {V = V} Tell }
    ensures joining { (other : ℕ) → Keeps {V = V} (Join other) }
{}

/// Whatever callers do from an opening state on, the invariant holds after each step, with the
/// history of what was decided.
pub fn law_of_runs<V>()
    ensures { LawOfRuns V }
{}

/// What each view shows while the invariant holds: what was seen and heard are beginnings of one
/// legal history, which has of its caller just the entries that are its own, all of them seen. The
/// held stripes are lawful, their power is no less than what was told and heard, and where they are
/// all stripes, the history leads to what they contain, and all of it was seen. Where a view keeps
/// the numbers of all callers, the history is an interleaving of their entries. What was watched is
/// a legal trace, in which the caller's steps are its own, by which it decided its entries.
pub fn law_of_views<V>()
    ensures { LawOfViews V }
{}

/// A step that decides a call leaves its caller with it answered: to what the caller had seen come
/// some entries of others and then the call's own, all of that is legal, and the caller has this
/// entry more. There are none of others where it is the only caller, or held all stripes. Every
/// other step leaves its caller with the entries that it had, and with no less of the history seen.
pub fn law_of_answers<V>()
    ensures decided { LawOfAnswers V }
    ensures follows { LawOfFollowing V }
    ensures other { LawOfOtherSteps V }
{}

/// Where from some point of a legal history on each entry is a find, a len, a session that changes
/// nothing, or a change of two or a session on some names that keeps the sum of their values, every
/// later session on all names shows the sum of that point.
pub fn law_of_sums()
    ensures { LawOfSums }
{}

/// Where each caller has a view of its own, the state determines the history: it is empty, or it is
/// what one of the callers has seen. If besides all that was seen in this state was seen in another,
/// too, the other's history begins by this one's. By every step but a join, what was seen stays
/// seen.
pub fn law_of_one_history<V>()
    ensures determined { LawOfOneHistory V }
    ensures seen { LawOfSeenHistory V }
    ensures grows { LawOfGrowth V }
    ensures steps { LawOfGrowingViews V }
{}

/// Linearizability (Herlihy and Wing 1990) in the order of the trace: where one completed call ends
/// before another begins, its entry stands before the other's. A completed call decides its entry,
/// and no other, by its caller's own steps among those that the caller watched during the call.
pub fn law_of_trace_order<V>()
    ensures { LawOfTraceOrder V }
{}

/// The history of a run is what its steps decide, in their order. In each run from an opening it is
/// legal, and the entry of an answered call stands between what the history was when the call began
/// and what it was when the call ended. So where one call ends before another begins, its entry
/// stands before the other's: the protocol is linearizable in the order of its steps (Herlihy and
/// Wing 1990).
pub fn law_of_real_time<V>()
    ensures decisions { LawOfDecisions V }
    ensures order { LawOfRealTime V }
{}

/// In each run from an opening, at each moment of its trace, the stripes contain by the trace a
/// lawful whole, of which the entries that were decided until then leave just the bindings.
pub fn law_of_contents<V>()
    ensures { LawOfContents V }
{}

/// In each run from an opening, what a caller noted of stripes is what they contained at a moment
/// of the run, when it held them, also by the trace, of which the later one is a continuation.
/// Where a name found no room, they gave the reason. Where the table doubled, they were all
/// stripes, and bound what the history left.
pub fn law_of_notes<V>()
    ensures room { LawOfRoomNotes V }
    ensures growths { LawOfGrowths V }
{}
