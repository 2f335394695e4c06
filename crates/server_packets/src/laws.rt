ghost use Rattle.server_packets.specs.Laws.{OneList, SentIsHeld};

/// What comes in one piece holds only one list of datagrams.
pub fn packets_hold_one_list()
    ensures { OneList }
{}

/// What is sent for some datagrams holds these datagrams, if none of them begins with the mark of a packet.
pub fn what_is_sent_is_held()
    ensures { SentIsHeld }
{}
