ghost use Rattle.std.specs.Prelude.{◌≡◌, ℕ, List, [], ◌∷◌, ◌++◌, None, Some, IfOk, OnOk, OnErr, MatchOption};
ghost use Rattle.std.specs.Prelude.{option_map};
ghost use Rattle.command.specs.Action.{Order, remove};
ghost use Rattle.command.specs.Site.{template_at, partial_at, data_at, route_at, redirect_at};
ghost use Rattle.command.specs.Standing.{StandsAs};
ghost use Rattle.command.specs.View.{kind_view, pair_view};
ghost use Rattle.context.specs.View.{data_view};
ghost use Rattle.mustache_parse.specs.Template.{IsTemplateOf};
ghost use Rattle.content.specs.Standing.{HasContents};
ghost use Rattle.content.specs.Answered.{answered};

use crate::applied::Applied;
use crate::maps::{put, share, take_away};
use crate::target::Target;
use command::{Action, Kind};
use context::Data;
use mustache_parse::Template;
use shared_map::SharedMap;
use std::alloc::{AllocError, Global};
use std::marker::Model;

/// What a list of commands, each of which has an effect, leaves by name.
pub struct Contents {
    alloc: Global,
    templates: SharedMap<String, Template>,
    partials: SharedMap<String, Template>,
    page_data: SharedMap<String, Data>,
    routes: SharedMap<String, Target>,
    redirects: SharedMap<String, String>,
}

impl Drop for Contents {
    // Whoever drops it proves one step: only here it is proved that its parts can be dropped.
    fn drop(self) {
        let Contents {
            alloc: _,
            templates: _,
            partials: _,
            page_data: _,
            routes: _,
            redirects: _,
        } = self;
    }
}

impl Model for Contents {
    ghost use Rattle.std.specs.Coded.{codes};
    ghost use Rattle.context.specs.contracts.tree.Data as data_type;
    ghost use Rattle.mustache_parse.specs.contracts.node.Node as node_type;
    ghost use Rattle.content.specs.View.{ContentsSeen};

    ghost Value = { ContentsSeen };

    ghost coded = { Prim.hlevel (codes, node_type.the_row.coded, data_type.the_row.coded) };

    ghost view = { λ s. record {
      templates = s.templates;
      partials = s.partials;
      page_data = s.page_data;
      routes = s.routes;
      redirects = s.redirects;
    } };
}

impl Contents {
    /// The contents that no commands leave.
    pub fn new(alloc: Global) -> Contents
        ensures { HasContents result [] }
    {
        Contents {
            alloc,
            templates: SharedMap::new(alloc),
            partials: SharedMap::new(alloc),
            page_data: SharedMap::new(alloc),
            routes: SharedMap::new(alloc),
            redirects: SharedMap::new(alloc),
        }
    }

    /// Applies the action of the next command. If an allocation fails, the contents stay as they are.
    pub fn act(&mut self, action: Action) -> Result<Applied, AllocError>
        ensures ok { IfOk result (λ a. (orders : List Order) (order : Order) → StandsAs action order.action
            → HasContents self.old orders
            → HasContents self.new (orders ++ (order ∷ [])) × (a ≡ answered order.action)) }
        ensures err { OnErr result (self.new ≡ self.old) }
    {
        let done = match action {
            Action::PutTemplate { name, template } => put(&mut self.templates, name, template),
            Action::PutPartial { name, template } => put(&mut self.partials, name, template),
            Action::PutData { name, page_data } => put(&mut self.page_data, name, page_data),
            Action::PutRoute {
                path,
                template,
                page_data,
            } => {
                let target = Target {
                    template,
                    page_data,
                };
                put(&mut self.routes, path, target)
            }
            Action::PutRedirect { path, target } => put(&mut self.redirects, path, target),
            Action::Remove { kind, name } => self.remove(kind, &name),
            Action::Release => return Ok(Applied::Released),
        };
        done?;
        Ok(Applied::Changed)
    }

    fn remove(&mut self, kind: Kind, name: &str) -> Result<(), AllocError>
        ensures removed { OnOk result ((orders : List Order) (order : Order)
            → order.action ≡ remove (kind_view kind) name.now
            → HasContents self.old orders → HasContents self.new (orders ++ (order ∷ []))) }
        ensures err { OnErr result (self.new ≡ self.old) }
    {
        match kind {
            Kind::Template => take_away(&mut self.templates, name),
            Kind::Partial => take_away(&mut self.partials, name),
            Kind::Data => take_away(&mut self.page_data, name),
            Kind::Route => take_away(&mut self.routes, name),
            Kind::Redirect => take_away(&mut self.redirects, name),
        }
    }

    /// A copy, which shares its contents with this one. A change of either does not change the other.
    pub fn copy(&self) -> Result<Contents, AllocError>
        ensures { IfOk result (λ s. s ≡ self.now) }
    {
        let mut copy = Contents::new(self.alloc);
        match copy.share(self) {
            Ok(()) => Ok(copy),
            Err(refused) => {
                drop(copy);
                Err(refused)
            }
        }
    }

    /// Makes these contents the same as others, and shares them.
    fn share(&mut self, others: &Contents) -> Result<(), AllocError>
        ensures { OnOk result (self.new ≡ others.now) }
    {
        share(&mut self.templates, &others.templates)?;
        share(&mut self.partials, &others.partials)?;
        share(&mut self.page_data, &others.page_data)?;
        share(&mut self.routes, &others.routes)?;
        share(&mut self.redirects, &others.redirects)
    }

    /// The template of that name.
    pub fn template(&self, name: &str) -> Option<&Template>
        ensures { (orders : List Order) → HasContents self.now orders
            → MatchOption result (template_at name.now orders ≡ None)
            (λ t. (text : List ℕ) × (template_at name.now orders ≡ Some text) × IsTemplateOf t.now text) }
    {
        self.templates.get(name)
    }

    /// The partial of that name.
    pub fn partial(&self, name: &str) -> Option<&Template>
        ensures { (orders : List Order) → HasContents self.now orders
            → MatchOption result (partial_at name.now orders ≡ None)
            (λ t. (text : List ℕ) × (partial_at name.now orders ≡ Some text) × IsTemplateOf t.now text) }
    {
        self.partials.get(name)
    }

    /// The data of that name.
    pub fn data(&self, name: &str) -> Option<&Data>
        ensures { (orders : List Order) → HasContents self.now orders
            → option_map (λ d. data_view d.now) result ≡ data_at name.now orders }
    {
        self.page_data.get(name)
    }

    /// The names of the template and the data of the route at that path.
    pub fn route(&self, path: &str) -> Option<(&str, &str)>
        ensures { (orders : List Order) → HasContents self.now orders
            → option_map pair_view result ≡ route_at path.now orders }
    {
        let target = self.routes.get(path)?;
        Some((target.template.as_str(), target.page_data.as_str()))
    }

    /// The path that the redirect at that path leads to.
    pub fn redirect(&self, path: &str) -> Option<&str>
        ensures { (orders : List Order) → HasContents self.now orders
            → option_map (λ target. target.now) result ≡ redirect_at path.now orders }
    {
        let target = self.redirects.get(path)?;
        Some(target.as_str())
    }
}
