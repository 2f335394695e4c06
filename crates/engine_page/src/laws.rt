//! What holds of the definitions by themselves.
ghost use Rattle.engine_page.specs.Laws.{OneFrame, OneSplit, OneReading, SomeReading, OneVerdict};
ghost use Rattle.engine_page.specs.Laws.{SomeVerdict};

/// Bytes are framed commands in at most one way. So an input has at most one reading and one verdict. Every
/// input has a reading.
pub fn an_input_has_one_verdict()
    ensures frame { OneFrame }
    ensures split { OneSplit }
    ensures reading { OneReading }
    ensures some_reading { SomeReading }
    ensures verdict { OneVerdict }
    ensures some_verdict { SomeVerdict }
{}
