ghost use Rattle.world.specs.Batches.{CallsAreEvents, SaysItself, OthersComeFirst, SealedIsARun, CrashIsARun};
ghost use Rattle.world.specs.Batches.{OpeningIsARun, BatchesAgree, CallsGoOn, LeftBefore, LeftSealed};
ghost use Rattle.world.specs.Batches.{LeftFailed, OpenedOver, SomeBatchIsTaken};

use site_disk::Disk;

/// A batch of a node's calls is a run of events of the definitions. If it is sealed, the run is its calls,
/// one after another. It may be cut short, by a crash at any moment or by a device that fails in the seal.
/// Then the run ends in a crash of the node, before the first of the calls or after the last one: the next
/// opening finds which. So all that holds of every schedule holds of nodes that batch.
pub fn batches_are_runs<D: Disk>()
    ensures events { CallsAreEvents }
    ensures says { SaysItself }
    ensures others { OthersComeFirst }
    ensures sealed { SealedIsARun }
    ensures crash { CrashIsARun }
    ensures opening { OpeningIsARun }
    ensures agree { BatchesAgree }
    ensures call { CallsGoOn D.stands_for }
    ensures before { LeftBefore D.stands_for }
    ensures seal { LeftSealed D.stands_for }
    ensures failure { LeftFailed D.stands_for }
    ensures over { OpenedOver D.stands_for }
    ensures some { SomeBatchIsTaken }
{}
