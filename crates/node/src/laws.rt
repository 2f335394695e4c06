ghost use Rattle.node.specs.Kept.{KeepLeavesNone, KeepStaysHistory, KnownIsOnRecord};
ghost use Rattle.node.specs.Laws.{BeginningStays, KnownStays, MarkStays, OneEntry};
ghost use Rattle.node.specs.Ranges.{OpensInRange, SaysFew, SaysMessages, StaysInRange};
ghost use Rattle.node.specs.Stuck.{NeverStuck};
ghost use Rattle.node.specs.Tidy.{CommandsShareTheirOwn, OpensTidy, SharingIsMutual, StaysTidy};

/// A call loses nothing that is known, puts at most one entry on record, and neither arms the device nor
/// disarms it.
pub fn calls_forget_nothing()
    ensures known { KnownStays }
    ensures begins { BeginningStays }
    ensures entry { OneEntry }
    ensures mark { MarkStays }
{}

/// Attempts are at unknown instances, less than `MAX_ATTEMPTS` past the first unknown one, and each unknown
/// instance below an attempt has one too. Votes are at unknown instances, and pending values have tickets of
/// their own. So a call hands out few messages.
pub fn nodes_stay_tidy()
    ensures opens { OpensTidy }
    ensures stays { StaysTidy }
    ensures mutual { SharingIsMutual }
    ensures own { CommandsShareTheirOwn }
    ensures few { SaysFew }
{}

/// What a node knows, attempts and has pending stays in its ranges, and what it hands out is messages of its
/// cluster.
pub fn nodes_stay_in_range()
    ensures opens { OpensInRange }
    ensures stays { StaysInRange }
    ensures messages { SaysMessages }
{}

/// At a node that runs each call has an effect, or a cause to refuse it other than a failed allocation.
pub fn no_call_is_stuck()
    ensures { NeverStuck }
{}

/// After a call that keeps what is known at an instance, nothing is left to keep there: a value is on record
/// there as learned. The entry that goes on record may follow what is there.
pub fn known_values_are_kept()
    ensures none { KeepLeavesNone }
    ensures on_record { KnownIsOnRecord }
    ensures history { KeepStaysHistory }
{}
