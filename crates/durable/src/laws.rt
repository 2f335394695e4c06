ghost use Rattle.durable.specs.Laws.{OneList, SettledKeeps, CrashSettles, OpeningSettles, SyncKeeps};
ghost use Rattle.durable.specs.Laws.{NeverRefused, FloorStays, OpeningSettlesBatch, CrashSettlesBatch};
ghost use Rattle.durable.specs.Laws.{SyncKeepsBatch, NeverRefusedBatch};

/// A file stands for one list of entries at most.
pub fn files_stand_for_one_list()
    ensures { OneList }
{}

/// A disk at rest keeps exactly the entries that are read from it. A crash, and an opening without one,
/// settle whether the entry in flight is on record.
pub fn in_flight_settles()
    ensures rest { SettledKeeps }
    ensures crash { CrashSettles }
    ensures opening { OpeningSettles }
    ensures sync { SyncKeeps }
{}

/// No disk that keeps a record is refused for its bytes.
pub fn kept_records_open()
    ensures { NeverRefused }
{}

/// If a device fails while a batch is sealed, an opening or a crash settles whether the batch is on record:
/// all of it or none. No such disk is refused for its bytes.
pub fn batches_settle()
    ensures opening { OpeningSettlesBatch }
    ensures crash { CrashSettlesBatch }
    ensures sync { SyncKeepsBatch }
    ensures refused { NeverRefusedBatch }
{}

/// A file that a format above a floor leaves, whole or cut short, is opened with that floor and nothing else,
/// or not at all.
pub fn floors_stay()
    ensures { FloorStays }
{}
