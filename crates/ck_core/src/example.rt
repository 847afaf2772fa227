//! Two runs of two callers over two stripes: one inserts and the other finds; and one begins and
//! meets the other.
ghost use Rattle.ck_core.specs.Example.{ExampleOpens, ExampleRuns, ExampleCalls, ExampleOrder, MeetingOpens, MeetingRuns};

/// The steps allow this run from an empty opening of two callers over two stripes: the first caller
/// takes stripe 0; the second finds it held; the first takes stripe 1 and decides `insert 0 5`, by
/// which stripe 0 goes home; the second takes it and finds stripe 1 held; the first gives that
/// back; the second takes it, decides `find 0` and gives it back. The history is the insertion,
/// replied New, and then the find, replied with the value 5.
pub fn example_run()
    ensures opening { ExampleOpens }
    ensures history { ExampleRuns }
{}

/// After the run of `example_run` the first caller takes both stripes, decides `find 0` and gives
/// them back. This call begins after that of the second caller has ended, so its entry stands after
/// the other's.
pub fn example_order()
    ensures calls { ExampleCalls }
    ensures order { ExampleOrder }
{}

/// The steps allow this run from an empty opening of one caller, which keeps the number of another:
/// the other begins; the first takes stripe 0 and gives it back with the contents of an identity
/// section, takes stripe 1 and gives it back unchanged, and tells what it has seen; the other joins
/// that and looks. The history stays empty.
pub fn example_meeting()
    ensures opening { MeetingOpens }
    ensures history { MeetingRuns }
{}
