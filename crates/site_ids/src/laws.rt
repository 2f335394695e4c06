ghost use Rattle.site_ids.specs.Laws.{MajoritiesShare, SomeMajority, OneOfThree};

/// Two majorities of one cluster have a node in common, and each cluster has one.
pub fn majorities_share_a_node()
    ensures share { MajoritiesShare }
    ensures some { SomeMajority }
{}

/// Of two ballots one is below the other, or they are equal, and only one of the three.
pub fn ballots_stand_in_one_order()
    ensures { OneOfThree }
{}
