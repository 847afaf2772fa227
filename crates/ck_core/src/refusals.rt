//! Steps that aren't allowed, as a test of the definitions.
ghost use Rattle.std.specs.Prelude.{◌≡◌, ℕ, ◌<◌, ◌≤◌, List, Option, [], ◌∷◌, take};
ghost use Rattle.ck_model.specs.declared.history.Act.TheVariants.{Find, Insert};
ghost use Rattle.ck_model.specs.declared.history.Call.TheVariants.{On};
ghost use Rattle.ck_model.specs.declared.history.Reply.TheVariants.{Was, New};
ghost use Rattle.ck_model.specs.declared.history.Reason.{Reason};
ghost use Rattle.ck_model.specs.declared.history.Entry.{Entry};
ghost use Rattle.ck_model.specs.declared.settings.Settings.{Settings};
ghost use Rattle.ck_model.specs.Promise.{Name};
ghost use Rattle.ck_model.specs.Contents.{Stripes};
ghost use Rattle.ck_core.specs.Steps.{Opening};
ghost use Rattle.ck_core.specs.Steps.Label.{Take, FindHeld, Give, Decide, GiveRest, Renew, Look, Open, Tell, Join};
ghost use Rattle.ck_core.specs.Example.{two_stripes, settings, zero_name, insertion, look_up, empty_stripe, full_stripe, both, first, start, one_held, decided, both_held, alone, steps};
ghost use Rattle.ck_core.specs.Refusals.{Reaches, IsForbidden, LeavesHome, LeavesView, one_told, told_and_held, one_number, one_kept};

/// From the states of the example run after its first, fourth and eighth step, and from the
/// opening, these steps aren't allowed: to take a stripe below a held one, or one that another
/// caller holds; to find one's own stripe held; to take a stripe, or find it held, by what another
/// caller told; to give back a stripe that isn't held; to decide
/// with a wrong reply, without all stripes of the name, for another caller, or for a number that no
/// caller can have; to renew to contents that lack an entry; to say of a bound name that it found
/// no room, by giving back or by renewing; to be told of a power above the table's; to begin a
/// caller where no number is left; and to join a view that holds a stripe, or one's own.
///
/// And no allowed step from these states leaves what it must not: a stripe that is given back goes
/// home with the content that was held; a decision leaves its caller, which had no entry, with no
/// two of its own, and with no two new ones in what it has seen; and a look tells no lower power.
/// From the opening of one caller that keeps the number 1, a caller that begins has that number,
/// and the first keeps none. There is no opening where two callers have one number, nor where one
/// keeps the number that another has.
pub fn wrong_steps()
    ensures one_held_is_reached { Reaches (take 1 steps) [] one_held }
    ensures decided_is_reached { Reaches (take 4 steps) (insertion ∷ []) decided }
    ensures both_held_is_reached { Reaches (take 8 steps) (insertion ∷ []) both_held }
    ensures take_below { IsForbidden (insertion ∷ []) decided 0 (Take 0) }
    ensures take_held { IsForbidden [] one_held 1 (Take 0) }
    ensures find_own { IsForbidden [] one_held 0 (FindHeld 0) }
    ensures one_told_is_reached { Reaches ((0, Tell) ∷ []) [] one_told }
    ensures told_and_held_is_reached { Reaches ((0, Tell) ∷ (0, Take 0) ∷ []) [] told_and_held }
    ensures take_by_nobody { IsForbidden [] one_told 2 (Take 0) }
    ensures find_by_nobody { IsForbidden [] told_and_held 2 (FindHeld 0) }
    ensures give_not_held { (g : Option (Name × Reason))
        → IsForbidden (insertion ∷ []) decided 0 (Give 0 g) }
    ensures give_of_another { IsForbidden [] one_held 1 (GiveRest 0) }
    ensures wrong_reply { (t : ℕ) (ks : Stripes ℕ)
        → IsForbidden (insertion ∷ []) both_held 1
        (Decide t ks (record { by = 1; call = On zero_name (Insert 7); reply = New })) }
    ensures wrong_value { (t : ℕ) (ks : Stripes ℕ)
        → IsForbidden (insertion ∷ []) both_held 1
        (Decide t ks (record { by = 1; call = On zero_name Find; reply = Was None })) }
    ensures without_all { (t : ℕ) (ks : Stripes ℕ)
        → IsForbidden [] one_held 0 (Decide t ks insertion) }
    ensures for_another { (t : ℕ) (ks : Stripes ℕ)
        → IsForbidden (insertion ∷ []) both_held 0 (Decide t ks look_up) }
    ensures undealt_number { (id t : ℕ) (ks : Stripes ℕ) (e : Entry ℕ) → settings.callers ≤ e.by
        → IsForbidden (insertion ∷ []) both_held id (Decide t ks e) }
    ensures lost_entry { (t : ℕ) (g : Option (Name × Reason))
        → IsForbidden (insertion ∷ []) both_held 1 (Renew t (both empty_stripe) g) }
    ensures no_grounds { (t : ℕ) (why : Reason)
        → IsForbidden (insertion ∷ []) both_held 1 (Give t (Some (zero_name, why))) }
    ensures renew_no_grounds { (t : ℕ) (ks : Stripes ℕ) (why : Reason)
        → IsForbidden (insertion ∷ []) both_held 1 (Renew t ks (Some (zero_name, why))) }
    ensures told_above { (t p : ℕ) → 1 < p → IsForbidden [] start 0 (Look t p) }
    ensures no_number_left { IsForbidden [] start 0 Open }
    ensures join_a_holder { IsForbidden [] one_held 1 (Join 0) }
    ensures join_itself { IsForbidden [] start 0 (Join 0) }
    ensures give_other_content { (g : Option (Name × Reason))
        → LeavesHome [] one_held 0 (Give 0 g) 0 empty_stripe }
    ensures give_rest_other_content { LeavesHome [] one_held 0 (GiveRest 0) 0 empty_stripe }
    ensures give_other_stripe { (g : Option (Name × Reason))
        → LeavesHome (insertion ∷ []) both_held 1 (Give 0 g) 0 full_stripe }
    ensures give_rest_other_stripe { LeavesHome (insertion ∷ []) both_held 1 (GiveRest 0) 0
        full_stripe }
    ensures decide_two_entries { (t : ℕ) (ks : Stripes ℕ) (e a b : Entry ℕ) (more : List (Entry ℕ))
        → LeavesView (insertion ∷ []) both_held 1 (Decide t ks e) 1
        (λ w. ¬ (w.mine ≡ a ∷ b ∷ more)) }
    ensures decide_two_seen { (t : ℕ) (ks : Stripes ℕ) (e a b : Entry ℕ) (more : List (Entry ℕ))
        → LeavesView (insertion ∷ []) both_held 1 (Decide t ks e) 1
        (λ w. ¬ (w.seen ≡ insertion ∷ a ∷ b ∷ more)) }
    ensures look_told_falls { (t p : ℕ)
        → LeavesView [] start 0 (Look t p) 0 (λ w. first.told ≤ w.told) }
    ensures open_other_number { LeavesView [] alone 0 Open 1 (λ w. w.by ≡ Some 1) }
    ensures open_number_again { LeavesView [] alone 0 Open 0 (λ w. w.others ≡ []) }
    ensures one_number_twice { (set : Settings) (callers p : ℕ)
        → ¬ (Opening two_stripes set callers p one_number) }
    ensures kept_number_twice { (set : Settings) (callers p : ℕ)
        → ¬ (Opening two_stripes set callers p one_kept) }
{}
