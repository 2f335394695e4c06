//! A file of a generator's output as a page of a site.
ghost use Rattle.std.specs.Prelude.{◌≡◌, IfOk, MatchOption, MatchResult, string_bytes};
ghost use Rattle.editor_command.specs.Texts.{IsCommandText};
ghost use Rattle.editor_import.specs.Pages.{IsPageOf, IsPut, IsLeftOut, WhyNot, FaultOf, template_text};
ghost use Rattle.editor_import.specs.Pages.{route_text};
ghost use Rattle.editor_import.specs.Routes.{IsRoute};
ghost use Rattle.editor_import.specs.Verbatim.{verbatim, Shows};

use crate::left_out::NotTaken;
use crate::route::route_of;
use crate::template::template_of;
use command::CommandFault;
use editor_command::refused;
use editor_folder::SiteFile;
use sha2::{Digest, Sha256};
use std::alloc::{AllocError, Global};

/// The data of each page. No page uses any of it.
pub(crate) const DATA: &str = "none";

/// A page: its path, and its template with a name.
#[derive(Drop)]
pub struct ImportedPage {
    pub path: String,
    pub name: String,
    pub template: String,
}

/// A valid name for any path: its digest.
fn digest_name(alloc: Global, file: &str) -> Result<String, AllocError> {
    hex::encode(alloc, Sha256::digest(file.as_bytes()))
}

/// The name of a file's template: the file's own, if that is valid, otherwise a digest.
fn name_of(alloc: Global, file: &str) -> Result<String, AllocError> {
    let name = file.strip_suffix(".html").unwrap_or(file);
    let removal = format!(in alloc; "remove template {name}\n")?;
    match refused(alloc, removal.as_bytes())? {
        None => String::from_str(alloc, name),
        Some(_) => digest_name(alloc, file),
    }
}

/// Why the template of a page can't be put.
fn template_fault(alloc: Global, page: &ImportedPage) -> Result<Option<CommandFault>, AllocError>
    ensures { IfOk result (λ o. MatchOption o (IsCommandText (template_text page.now))
        (FaultOf (template_text page.now))) }
{
    let (name, template) = (page.name.as_str(), page.template.as_str());
    let text = format!(in alloc; "put template {name}\n{template}")?;
    match refused(alloc, text.as_bytes())? {
        Some(refusal) => Ok(Some(refusal.fault)),
        None => Ok(None),
    }
}

/// Why the route of a page can't be put.
fn route_fault(alloc: Global, page: &ImportedPage) -> Result<Option<CommandFault>, AllocError>
    ensures { IfOk result (λ o. MatchOption o (IsCommandText (route_text page.now))
        (FaultOf (route_text page.now))) }
{
    let (path, name) = (page.path.as_str(), page.name.as_str());
    let text = format!(in alloc; "put route {path} {name} {DATA}\n")?;
    match refused(alloc, text.as_bytes())? {
        Some(refusal) => Ok(Some(refusal.fault)),
        None => Ok(None),
    }
}

/// Why one of the two commands of a page is invalid.
fn page_fault(alloc: Global, page: &ImportedPage) -> Result<Option<CommandFault>, AllocError>
    ensures { IfOk result (λ o. MatchOption o (IsPut page.now) (WhyNot page.now)) }
{
    match template_fault(alloc, page)? {
        Some(fault) => Ok(Some(fault)),
        None => route_fault(alloc, page),
    }
}

/// The page of a text, before it is checked.
fn draft_of(alloc: Global, file: &str, text: &str) -> Result<ImportedPage, AllocError>
    ensures route { IfOk result (λ p. IsRoute (string_bytes p.path) file.now) }
    ensures template { IfOk result (λ p. string_bytes p.template ≡ verbatim text.now) }
    ensures shows { IfOk result (λ p. Shows (string_bytes p.template) text.now) }
{
    Ok(ImportedPage {
        path: route_of(alloc, file)?,
        name: name_of(alloc, file)?,
        template: template_of(alloc, text)?,
    })
}

/// The page of a file, or why it has none.
pub fn page_of(alloc: Global, file: &SiteFile) -> Result<Result<ImportedPage, NotTaken>, AllocError>
    ensures { IfOk result (λ r. MatchResult r (λ p. IsPageOf p file.now) (λ why. IsLeftOut why file.now)) }
{
    let Ok(text) = str::from_utf8(&file.bytes) else {
        return Ok(Err(NotTaken::NoText));
    };
    let page = draft_of(alloc, file.path.as_str(), text)?;
    match page_fault(alloc, &page)? {
        None => Ok(Ok(page)),
        Some(fault) => Ok(Err(NotTaken::NoCommand(fault))),
    }
}
