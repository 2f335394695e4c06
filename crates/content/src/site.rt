//! The set of tickets with the new one is made beside the old set.
//!
//! Tests call `apply`. A node reads a value once, when it becomes known, and its releases call
//! `apply_command`.

ghost use Rattle.std.specs.Prelude.{◌≡◌, ◌≢◌, ℕ, List, [], ◌∷◌, ◌++◌, Some, None, Ok, true, if◌then◌else◌};
ghost use Rattle.std.specs.Prelude.{IfOk, OnErr, MatchOption, option_map};
ghost use Rattle.command.specs.Action.{Order};
ghost use Rattle.command.specs.Effective.{effective, is_same_ticket};
ghost use Rattle.command.specs.Reading.{value_reading};
ghost use Rattle.command.specs.Site.{template_at, partial_at, data_at, route_at, redirect_at};
ghost use Rattle.command.specs.Standing.{StandsAs, StandsFor};
ghost use Rattle.command.specs.View.{pair_view};
ghost use Rattle.context.specs.View.{data_view};
ghost use Rattle.mustache_parse.specs.Template.{IsTemplateOf};
ghost use Rattle.content.specs.Standing.{HasContents, IsSiteOf, is_held};
ghost use Rattle.content.specs.View.{keys};
ghost use Rattle.site_ids.specs.declared.Ticket.{Ticket};
ghost use Rattle.content.specs.Answered.{answered, applied};

use crate::applied::Applied;
use crate::contents::Contents;
use command::{Action, Command, CommandFault, read};
use context::Data;
use mustache_parse::Template;
use shared_map::SharedMap;
use site_ids::Ticket;
use std::alloc::{AllocError, Global};
use std::marker::Model;
use std::mem;

/// What a list of values leaves: the contents by name, and the tickets of its commands.
#[derive(Drop)]
pub struct Site {
    alloc: Global,
    tickets: SharedMap<Ticket, ()>,
    contents: Contents,
}

impl Model for Site {
    ghost use Rattle.std.specs.Coded.{codes};
    ghost use Rattle.context.specs.contracts.tree.Data as data_type;
    ghost use Rattle.mustache_parse.specs.contracts.node.Node as node_type;
    ghost use Rattle.content.specs.View.{SiteSeen, keys};

    ghost Value = { SiteSeen };

    ghost coded = { Prim.hlevel (codes, node_type.the_row.coded, data_type.the_row.coded) };

    ghost view = { λ s. record { tickets = keys s.tickets; contents = s.contents } };
}

/// The answer to a value that is not a command.
fn no_command(fault: CommandFault) -> Result<Applied, AllocError>
    ensures { IfOk result (λ a. (a ≡ Applied.NotACommand) × (fault ≢ CommandFault.OutOfMemory)) }
{
    match fault {
        CommandFault::OutOfMemory => Err(AllocError),
        _ => Ok(Applied::NotACommand),
    }
}

/// The tickets and one more, made beside the old set.
fn with_ticket(
    tickets: &SharedMap<Ticket, ()>,
    ticket: Ticket,
) -> Result<SharedMap<Ticket, ()>, AllocError>
    ensures { IfOk result (λ more. (t : Ticket)
        → is_held t (keys more) ≡ (if is_same_ticket ticket t then true else is_held t (keys tickets.now))) }
{
    let mut more = tickets.copy()?;
    more.put(ticket, ())?;
    Ok(more)
}

impl Site {
    /// The site of no values.
    pub fn new(alloc: Global) -> Site
        ensures { IsSiteOf result [] }
    {
        Site {
            alloc,
            tickets: SharedMap::new(alloc),
            contents: Contents::new(alloc),
        }
    }

    /// Applies the next value of the list. If an allocation fails, the site stays as it is.
    pub fn apply(&mut self, value: &[u8]) -> Result<Applied, AllocError>
        ensures ok { IfOk result (λ a. (values : List (List ℕ)) → IsSiteOf self.old values
            → IsSiteOf self.new (values ++ (value.now ∷ [])) × (a ≡ applied values value.now)) }
        ensures err { OnErr result (self.new ≡ self.old) }
    {
        match read(self.alloc, value) {
            Ok(command) => self.apply_command(command),
            Err(fault) => no_command(fault),
        }
    }

    /// Applies the next value, given the command that it was read as, unless an earlier command has its
    /// ticket. If an allocation fails, the site stays as it is.
    pub fn apply_command(&mut self, command: Command) -> Result<Applied, AllocError>
        ensures ok { IfOk result (λ a. (values : List (List ℕ)) (v : List ℕ) (order : Order)
            → value_reading v ≡ Ok order → StandsFor command order
            → IsSiteOf self.old values → IsSiteOf self.new (values ++ (v ∷ [])) × (a ≡ applied values v)) }
        ensures err { OnErr result (self.new ≡ self.old) }
    {
        let Command { ticket, action } = command;
        if self.tickets.contains(&ticket) {
            drop(action);
            return Ok(Applied::Repeat);
        }
        match with_ticket(&self.tickets, ticket) {
            Ok(tickets) => self.act(tickets, action),
            Err(refused) => {
                drop(action);
                Err(refused)
            }
        }
    }

    /// Applies an action, and keeps the tickets, which have that of its command.
    fn act(&mut self, tickets: SharedMap<Ticket, ()>, action: Action) -> Result<Applied, AllocError>
        ensures ok { IfOk result (λ a. (self.new.tickets ≡ keys tickets)
            × ((orders : List Order) (order : Order) → StandsAs action order.action
            → HasContents self.old.contents orders
            → HasContents self.new.contents (orders ++ (order ∷ [])) × (a ≡ answered order.action))) }
        ensures err { OnErr result (self.new ≡ self.old) }
    {
        let done = self.contents.act(action)?;
        drop(mem::replace(&mut self.tickets, tickets));
        Ok(done)
    }

    /// A copy, which shares its contents with this site. A change of either does not change the other.
    pub fn copy(&self) -> Result<Site, AllocError>
        ensures { IfOk result (λ s. s ≡ self.now) }
    {
        Ok(Site {
            alloc: self.alloc,
            tickets: self.tickets.copy()?,
            contents: self.contents.copy()?,
        })
    }

    /// The template of that name.
    pub fn template(&self, name: &str) -> Option<&Template>
        ensures { (values : List (List ℕ)) → IsSiteOf self.now values
            → MatchOption result (template_at name.now (effective values) ≡ None)
            (λ t. (text : List ℕ) × (template_at name.now (effective values) ≡ Some text)
            × IsTemplateOf t.now text) }
    {
        self.contents.template(name)
    }

    /// The partial of that name.
    pub fn partial(&self, name: &str) -> Option<&Template>
        ensures { (values : List (List ℕ)) → IsSiteOf self.now values
            → MatchOption result (partial_at name.now (effective values) ≡ None)
            (λ t. (text : List ℕ) × (partial_at name.now (effective values) ≡ Some text)
            × IsTemplateOf t.now text) }
    {
        self.contents.partial(name)
    }

    /// The data of that name.
    pub fn data(&self, name: &str) -> Option<&Data>
        ensures { (values : List (List ℕ)) → IsSiteOf self.now values
            → option_map (λ d. data_view d.now) result ≡ data_at name.now (effective values) }
    {
        self.contents.data(name)
    }

    /// The names of the template and the data of the route at that path.
    pub fn route(&self, path: &str) -> Option<(&str, &str)>
        ensures { (values : List (List ℕ)) → IsSiteOf self.now values
            → option_map pair_view result ≡ route_at path.now (effective values) }
    {
        self.contents.route(path)
    }

    /// The path that the redirect at that path leads to.
    pub fn redirect(&self, path: &str) -> Option<&str>
        ensures { (values : List (List ℕ)) → IsSiteOf self.now values
            → option_map (λ target. target.now) result ≡ redirect_at path.now (effective values) }
    {
        self.contents.redirect(path)
    }
}
