ghost use Rattle.mustache_parse.specs.Laws.{TreeIsMade, MakesAtMostOne, FaultIsFirst};

/// Tokens nest into a tree if and only if they make it, and they make one at most.
pub fn trees_are_made()
    ensures made { TreeIsMade }
    ensures one { MakesAtMostOne }
{}

/// A fault of nesting is at the first tag that has one, or else at the outermost section left open.
pub fn faults_are_first()
    ensures { FaultIsFirst }
{}
