ghost use Rattle.editor_plan.specs.Laws.{TicketsHaveOneText, DoneIsTheFolder};

/// Each ticket that is planned has one text, for every interruption and continuation.
pub fn tickets_have_one_text()
    ensures { TicketsHaveOneText }
{}

/// If a publication says that all is done, the puts that have their receipts are the folder's.
pub fn done_is_the_folder()
    ensures { DoneIsTheFolder }
{}
