//! What is put has a type of its own for each kind, so no case asks for a route's text.

use context::Data;
use mustache_parse::Template;
use site_ids::Ticket;

/// What a name names.
#[derive(Clone, Copy, Debug, PartialEq, Eq)]
pub enum Kind {
    Template,
    Partial,
    Data,
    Route,
    Redirect,
}

/// What a command does. A template, a partial and data have a name. A route has a path, and the names of its
/// template and data. A redirect has a path, and the path that it leads to. What is removed is named in the
/// same way: a route or a redirect by its path, all else by its name.
#[derive(Drop)]
pub enum Action {
    PutTemplate {
        name: String,
        template: Template,
    },
    PutPartial {
        name: String,
        template: Template,
    },
    PutData {
        name: String,
        page_data: Data,
    },
    PutRoute {
        path: String,
        template: String,
        page_data: String,
    },
    PutRedirect {
        path: String,
        target: String,
    },
    Remove {
        kind: Kind,
        name: String,
    },
    Release,
}

/// A command with its ticket.
#[derive(Drop)]
pub struct Command {
    pub ticket: Ticket,
    pub action: Action,
}
