ghost use Rattle.editor_ledger.specs.Laws.{EachTicketHasOneText, PastsStay, PlanTurns, SpellsOne};

/// A ticket has one text, for every interruption and continuation.
pub fn each_ticket_has_one_text()
    ensures { EachTicketHasOneText }
{}

/// After a plan has its receipts, what was published from the folder is the folder.
pub fn plans_turn_sites()
    ensures { PlanTurns }
{}

/// What the group had at a release stays known through later publications.
pub fn pasts_stay()
    ensures { PastsStay }
{}

/// What is read back is what was written.
pub fn files_keep_ledgers()
    ensures { SpellsOne }
{}
