//! Facts about the definitions, for their readers.
ghost use Rattle.http_serve.specs.Laws.{NamesOne, AreConnection};
ghost use Rattle.http_serve.specs.ConnectionTalks.{AreTalks};
ghost use Rattle.http_serve.specs.Talks.{TalksStand, OneMore, AloneIsServed, FarewellStands};

use crate::service::Service;

/// A path names one resource.
pub fn paths_name_one_resource()
    ensures { NamesOne }
{}

/// Exchanges one after another, each of which except the last keeps the connection, are what `serve` says of
/// the whole.
pub fn exchanges_are_a_connection<S: Service>(_service: &S)
    ensures { AreConnection S.offered }
{}

/// What happened on a connection stays the same if more bytes come.
pub fn talks_stand<S: Service>(_service: &S)
    ensures { TalksStand S.offered }
{}

/// A request that was whole and is answered is one exchange more.
pub fn one_exchange_more<S: Service>(_service: &S)
    ensures { OneMore S.offered }
{}

/// If nothing else happens between its exchanges, a connection's exchanges are those of one that is served by
/// itself.
pub fn a_talk_alone_is_served<S: Service>(_service: &S)
    ensures { AloneIsServed S.offered }
{}

/// A last response stays the last one, whatever more comes.
pub fn farewells_stand<S: Service>(_service: &S)
    ensures { FarewellStands S.offered }
{}

/// What the calls do to a `Connection`, over all that came on it and all that was written.
pub fn connections_are_talks<S: Service>(_service: &S)
    ensures { AreTalks S.offered }
{}
