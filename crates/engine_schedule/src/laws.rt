//! What holds of the definitions by themselves.
ghost use Rattle.engine_schedule.specs.Laws.{OneLine};

/// Bytes have one line of a schedule at their front, and one rest after it.
pub fn a_schedule_has_one_reading()
    ensures { OneLine }
{}
