//! The page of a site for a path.
//!
//! A page is defined by the list of commands, so its partials are those of that release's site.

ghost use Rattle.std.specs.Prelude.{◌≡◌, List, IfOk};
ghost use Rattle.command.specs.Action.{Order};
ghost use Rattle.content.specs.Standing.{HasContents};
ghost use Rattle.command.specs.Site.{redirect_at};
ghost use Rattle.release.specs.Page.{in_place, moved_to, redirected, page_of};
ghost use Rattle.release.specs.Standing.{answer_view};

use crate::answer::Answer;
use content::Contents;
use mustache_parse::Template;
use render::{Partials, RenderFault, render};
use std::alloc::{AllocError, Global};

/// The partials of a site.
#[derive(Clone, Copy)]
struct SitePartials<'a> {
    site: &'a Contents,
}

impl Partials for SitePartials<'_> {
    ghost use Rattle.std.specs.Prelude.{◌≡◌, ℕ, List};
    ghost use Rattle.command.specs.Action.{Order};
    ghost use Rattle.command.specs.Site.{partial_at};
    ghost use Rattle.content.specs.Standing.{HasContents};

    ghost stands = { λ partials texts. (orders : List Order) × HasContents partials.site.now orders
        × ((name : List ℕ) → texts name ≡ partial_at name orders) };

    fn find(&self, name: &str) -> Option<&Template> {
        self.site.partial(name)
    }
}

fn made(alloc: Global, status: u16, body: &str) -> Result<Answer, AllocError>
    ensures { IfOk result (λ a. answer_view a ≡ in_place status body.now) }
{
    Ok(Answer {
        status,
        body: String::from_str(alloc, body)?,
        location: None,
    })
}

/// The page of a path that leads to another one.
fn moved(alloc: Global, target: &str) -> Result<Answer, AllocError>
    ensures { IfOk result (λ a. answer_view a ≡ moved_to target.now) }
{
    Ok(Answer {
        status: 301,
        body: format!(in alloc; "moved to {target}\n")?,
        location: Some(String::from_str(alloc, target)?),
    })
}

/// The page of a path without a route.
fn unrouted(alloc: Global, site: &Contents, path: &str) -> Result<Answer, AllocError>
    ensures { IfOk result (λ a. (orders : List Order) → HasContents site.now orders
        → answer_view a ≡ redirected (redirect_at path.now orders)) }
{
    match site.redirect(path) {
        Some(target) => moved(alloc, target),
        None => made(alloc, 404, "not found\n"),
    }
}

pub(crate) fn page(alloc: Global, site: &Contents, path: &str) -> Result<Answer, AllocError>
    ensures { IfOk result (λ a. (orders : List Order) → HasContents site.now orders
        → answer_view a ≡ page_of orders path.now) }
{
    let Some((template, of)) = site.route(path) else {
        return unrouted(alloc, site, path);
    };
    let Some(template) = site.template(template) else {
        return made(alloc, 500, "template missing\n");
    };
    let Some(page_data) = site.data(of) else {
        return made(alloc, 500, "data missing\n");
    };
    match render(alloc, template, page_data, &SitePartials { site }) {
        Ok(body) => Ok(Answer {
            status: 200,
            body,
            location: None,
        }),
        Err(RenderFault::OverLimit) => made(alloc, 500, "page over limit\n"),
        Err(RenderFault::OutOfMemory) => Err(AllocError),
    }
}
