//! The laws of the definitions. The functions do nothing: their contracts are the laws.
ghost use Rattle.ck_model.specs.Laws.{StepsAreDetermined, StepsLeaveOthers, StepsAreSessions, SessionsAreOfAllNames, BeginningsAreLegal, HistoriesLeadToOneMap, SectionsAreSteps, IdentitySectionsKeepBindings, DoublingsKeepBindings, DoublingsKeepLawful, AlternateTwice, AlternateAtNextPower, AlternateItself, StripesStay};

/// A call and its reply determine what a step of the plain map leaves, and the names of which the
/// call doesn't speak stay bound as they were.
pub fn law_of_steps<V>()
    ensures determined { StepsAreDetermined V }
    ensures others { StepsLeaveOthers V }
{}

/// A step is a session on the names of which its call speaks, and on any others with them: so are
/// the call on one name and the change of two. A session on all names is one on those that were
/// bound or are.
pub fn law_of_sessions<V>()
    ensures names { StepsAreSessions V }
    ensures all { SessionsAreOfAllNames V }
{}

/// A beginning of a legal history is legal, and a legal history leads to one map.
pub fn law_of_histories<V>()
    ensures beginning { BeginningsAreLegal V }
    ensures one_map { HistoriesLeadToOneMap V }
{}

/// A section of stripes of a lawful whole leaves the whole lawful, and is a step of all its
/// bindings, whatever the other stripes contain.
pub fn law_of_sections<V>()
    ensures { SectionsAreSteps V }
{}

/// A section of no call, as a displacement or a doubling is, leaves the whole lawful and with the
/// same bindings.
pub fn law_of_identity_sections<V>()
    ensures { IdentitySectionsKeepBindings V }
{}

/// A table that doubled from lawful contents binds what it bound, and it is lawful where each of
/// its stripes has the shape of its power.
pub fn law_of_doublings<V>()
    ensures bindings { DoublingsKeepBindings V }
    ensures lawful { DoublingsKeepLawful V }
{}

/// The alternate of a bucket's alternate is the bucket. At the next power an alternate is, modulo
/// the old number of buckets, the old alternate. A bucket is its own alternate exactly where the
/// number of buckets divides the partial plus one.
pub fn law_of_alternates()
    ensures twice { AlternateTwice }
    ensures next_power { AlternateAtNextPower }
    ensures itself { AlternateItself }
{}

/// At every power that is not below that of the stripes, the two buckets of a hash are in the same
/// two stripes, so growing takes no entry to another stripe.
pub fn law_of_stripes()
    ensures { StripesStay }
{}
