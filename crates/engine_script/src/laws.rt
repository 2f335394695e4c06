//! What holds of the definitions by themselves.
ghost use Rattle.engine_script.specs.Laws.{OneScriptLine};

/// Bytes have one line of a script at their front, and one rest after it.
pub fn a_script_has_one_reading()
    ensures { OneScriptLine }
{}
