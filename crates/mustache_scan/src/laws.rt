ghost use Rattle.mustache_scan.specs.Laws.{CutIsFirst, NoCutIsNowhere, ReadingIsOneTag, BoundIsEnough};

/// A text is cut at the first place of a part, and is not cut if and only if the part occurs nowhere.
pub fn cuts_are_first()
    ensures first { CutIsFirst }
    ensures nowhere { NoCutIsNowhere }
{}

/// A text is read as one tag and the reading of the rest, and the bound on the number of tags changes
/// nothing.
pub fn readings_go_on()
    ensures step { ReadingIsOneTag }
    ensures bound { BoundIsEnough }
{}
