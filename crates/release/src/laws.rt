ghost use Rattle.release.specs.Laws.{ListBegins, AnswerStays, ReleasesStay, AnswerIsNone};
ghost use Rattle.release.specs.Laws.{ReceiptIsFirst, ReceiptIsNone, ReceiptStays, RepeatHasReceipt};

/// Releases and their answers stay, as values are added.
pub fn answers_stay()
    ensures begins { ListBegins }
    ensures stays { AnswerStays }
    ensures releases { ReleasesStay }
    ensures none { AnswerIsNone }
{}

/// Receipts are first places, and they stay, as values are added.
pub fn receipts_are_first()
    ensures first { ReceiptIsFirst }
    ensures none { ReceiptIsNone }
    ensures stays { ReceiptStays }
    ensures repeat { RepeatHasReceipt }
{}
