ghost use Rattle.command.specs.Laws.{RowIsSpelled, OlderRowStays, NewRowIsOfRedirect, FaultIsLeast};
ghost use Rattle.command.specs.Laws.{CommandHasNone, WrittenHolds};
ghost use Rattle.command.specs.Laws.{StandingIsLast, TemplateIsLast, PartialIsLast, DataIsLast, RouteIsLast};
ghost use Rattle.command.specs.Laws.{RedirectIsLast};
ghost use Rattle.command.specs.Laws.{EffectiveGrows, ReleaseIsShortest, NextBegins, ReleaseStays};

/// The row of a text, and the first of a value's faults, are those of the table of commands. Each text that
/// had a row before there were redirects still has it.
pub fn readings_are_by_the_table()
    ensures row { RowIsSpelled }
    ensures older { OlderRowStays }
    ensures newer { NewRowIsOfRedirect }
    ensures least { FaultIsLeast }
    ensures none { CommandHasNone }
    ensures written { WrittenHolds }
{}

/// What a site has at a kind and name is what the last command about them put.
pub fn the_last_command_counts()
    ensures standing { StandingIsLast }
    ensures template { TemplateIsLast }
    ensures partial { PartialIsLast }
    ensures page_data { DataIsLast }
    ensures route { RouteIsLast }
    ensures redirect { RedirectIsLast }
{}

/// Effective commands, and the lists of releases, only grow as values are added.
pub fn releases_only_grow()
    ensures grows { EffectiveGrows }
    ensures shortest { ReleaseIsShortest }
    ensures begins { NextBegins }
    ensures stays { ReleaseStays }
{}
