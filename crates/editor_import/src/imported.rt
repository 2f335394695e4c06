//! The folder of a site that another generator's pages make.
ghost use Rattle.std.specs.Prelude.{◌≡◌, true, IfOk, OnOk, string_bytes};
ghost use Rattle.editor_import.specs.Imports.{is_html, WhyLeft, SortsAnother, Sorts, IsImportOf};
ghost use Rattle.editor_import.specs.Pages.{IsPageOf};

use crate::imported_page::{DATA, ImportedPage, page_of};
use crate::leading::target_of;
use crate::left_out::{LeftOut, NotTaken};
use crate::refresh::alias_of;
use editor_command::refused;
use editor_folder::SiteFile;
use std::alloc::{AllocError, Global};
use std::collections::BTreeSet;
use url::{ParseError, Url};

/// The file in which a generator lists the addresses of its pages.
const SITEMAP: &str = "sitemap.xml";

/// The site's address if there is no such file: then only addresses without a host are of this site.
const NOWHERE: &str = "http://site.invalid/";

/// The page that is shown at paths without a page: its path, and the path at which a server in front asks for
/// it.
const MISSING: (&str, &str) = ("/404.html", "/404");

/// A file of the folder.
#[derive(Drop)]
pub struct SiteText {
    pub path: String,
    pub text: String,
}

/// A page that became a redirect: its file, and the path to which it leads on.
#[derive(Drop)]
pub struct LedOn {
    pub file: String,
    pub target: String,
}

/// The result for a generator's files: those of the folder, how many pages and redirects it has, which pages
/// became redirects, and what was left out.
#[derive(Drop)]
pub struct Imported {
    pub files: Vec<SiteText>,
    pub pages: usize,
    pub redirects: usize,
    pub led_on: Vec<LedOn>,
    pub left_out: Vec<LeftOut>,
}

/// A page that may be one of the folder: its file, and the path of the site to which it leads on, if it does.
#[derive(Drop)]
struct Candidate {
    file: String,
    page: ImportedPage,
    leads: Option<String>,
}

/// The files of a generator while they are sorted.
#[derive(Drop)]
struct Gathering {
    alloc: Global,
    site: Url,
    candidates: Vec<Candidate>,
    left_out: Vec<LeftOut>,
}

/// The first address in a sitemap.
fn first_address(sitemap: &[u8]) -> Option<&str> {
    let text = str::from_utf8(sitemap).ok()?;
    let (_, behind) = text.split_once("<loc>")?;
    let (address, _) = behind.split_once("</loc>")?;
    Some(address.trim())
}

/// The address of a page of the site, as its files state it.
fn address_in(files: &[SiteFile]) -> &str {
    match files.iter().find(|file| file.path.as_str() == SITEMAP) {
        Some(file) => first_address(&file.bytes).unwrap_or(NOWHERE),
        None => NOWHERE,
    }
}

fn url_of(alloc: Global, address: &str) -> Result<Option<Url>, AllocError> {
    match Url::parse(alloc, address) {
        Ok(url) => Ok(Some(url)),
        Err(ParseError::OutOfMemory) => Err(AllocError),
        Err(_) => Ok(None),
    }
}

impl Gathering {
    /// Where a page leads on to within the site.
    fn leads(&self, page: &ImportedPage, bytes: &[u8]) -> Result<Option<String>, AllocError> {
        let Ok(text) = str::from_utf8(bytes) else {
            return Ok(None);
        };
        match alias_of(text) {
            Some(address) => target_of(self.alloc, &self.site, page.path.as_str(), address),
            None => Ok(None),
        }
    }

    fn leave_out(&mut self, file: &SiteFile, why: NotTaken) -> Result<(), AllocError>
        requires { WhyLeft why file.now }
        ensures { OnOk result (SortsAnother self.old self.new file.now) }
    {
        let file = file.path.clone()?;
        self.left_out.push(LeftOut { file, why })?;
        Ok(())
    }

    fn add(&mut self, file: &SiteFile, page: ImportedPage) -> Result<(), AllocError>
        requires html { is_html (string_bytes file.now.path) ≡ true }
        requires page { IsPageOf page file.now }
        ensures { OnOk result (SortsAnother self.old self.new file.now) }
    {
        let leads = self.leads(&page, &file.bytes)?;
        let file = file.path.clone()?;
        self.candidates.push(Candidate { file, page, leads })?;
        Ok(())
    }

    /// Takes a file: as a page that may be one of the folder, or as one that is left out.
    fn take(&mut self, file: &SiteFile) -> Result<(), AllocError>
        ensures { OnOk result (SortsAnother self.old self.new file.now) }
    {
        if !file.path.as_bytes().ends_with(b".html") {
            return self.leave_out(file, NotTaken::Other);
        }
        match page_of(self.alloc, file)? {
            Ok(page) => self.add(file, page),
            Err(why) => self.leave_out(file, why),
        }
    }
}

/// Sorts all files.
fn gathered(alloc: Global, site: Url, files: &[SiteFile]) -> Result<Gathering, AllocError>
    ensures { IfOk result (λ g. Sorts files.now g.candidates.items g.left_out.items) }
{
    let mut gathering = Gathering {
        alloc,
        site,
        candidates: Vec::new(alloc),
        left_out: Vec::new(alloc),
    };
    for file in files {
        gathering.take(file)?;
    }
    Ok(gathering)
}

/// The paths of the pages that lead nowhere else.
fn paths_of(alloc: Global, candidates: &[Candidate]) -> Result<BTreeSet<String>, AllocError> {
    let mut paths = BTreeSet::new(alloc);
    for candidate in candidates {
        if candidate.leads.is_none() {
            let _ = paths.insert(candidate.page.path.clone()?)?;
        }
    }
    Ok(paths)
}

/// The folder while it is made.
#[derive(Drop)]
struct Writing {
    alloc: Global,
    templates: Vec<SiteText>,
    routes: String,
    redirects: String,
    pages: usize,
    moved: usize,
    led_on: Vec<LedOn>,
}

impl Writing {
    /// Adds a line to `redirects`, if it is a valid command. Returns whether it is.
    fn lead_on(&mut self, path: &str, target: &str) -> Result<bool, AllocError> {
        let command = format!(in self.alloc; "put redirect {path} {target}\n")?;
        if refused(self.alloc, command.as_bytes())?.is_some() {
            return Ok(false);
        }
        let line = format!(in self.alloc; "{path} {target}\n")?;
        self.redirects.push_str(line.as_str())?;
        self.moved = self.moved.saturating_add(1);
        Ok(true)
    }

    fn route(&mut self, path: &str, name: &str) -> Result<(), AllocError> {
        let line = format!(in self.alloc; "{path} {name} {DATA}\n")?;
        self.routes.push_str(line.as_str())?;
        self.pages = self.pages.saturating_add(1);
        Ok(())
    }

    /// Adds a page: its route and its template. An `index.html` also gets a redirect from its own name.
    fn page(&mut self, file: &str, page: ImportedPage) -> Result<(), AllocError> {
        let ImportedPage {
            path,
            name,
            template,
        } = page;
        self.route(path.as_str(), name.as_str())?;
        if path.as_str() == MISSING.0 {
            self.route(MISSING.1, name.as_str())?;
        }
        if path.as_str().ends_with('/') {
            let own = format!(in self.alloc; "/{file}")?;
            let _ = self.lead_on(own.as_str(), path.as_str())?;
        }
        let name = name.as_str();
        let path = format!(in self.alloc; "templates/{name}.mustache")?;
        self.templates.push(SiteText {
            path,
            text: template,
        })?;
        Ok(())
    }

    /// Adds a candidate: as a redirect if it leads to one of these paths, otherwise as a page.
    fn add(&mut self, paths: &BTreeSet<String>, candidate: Candidate) -> Result<(), AllocError> {
        let Candidate { file, page, leads } = candidate;
        if let Some(target) = leads {
            if paths.contains(target.as_str())
                && self.lead_on(page.path.as_str(), target.as_str())?
            {
                self.led_on.push(LedOn { file, target })?;
                return Ok(());
            }
        }
        self.page(file.as_str(), page)
    }

    fn add_all(&mut self, candidates: Vec<Candidate>) -> Result<(), AllocError> {
        let paths = paths_of(self.alloc, &candidates)?;
        for candidate in candidates {
            self.add(&paths, candidate)?;
        }
        Ok(())
    }

    /// The folder, with what was left out of it.
    fn finish(self, left_out: Vec<LeftOut>) -> Result<Imported, AllocError>
        ensures { IfOk result (λ made. made.left_out ≡ left_out) }
    {
        let Writing {
            alloc,
            templates,
            routes,
            redirects,
            pages,
            moved,
            led_on,
        } = self;
        let mut files = templates;
        files.push(SiteText {
            path: format!(in alloc; "data/{DATA}.json")?,
            text: String::from_str(alloc, "{}\n")?,
        })?;
        files.push(SiteText {
            path: String::from_str(alloc, "routes")?,
            text: routes,
        })?;
        files.push(SiteText {
            path: String::from_str(alloc, "redirects")?,
            text: redirects,
        })?;
        Ok(Imported {
            files,
            pages,
            redirects: moved,
            led_on,
            left_out,
        })
    }
}

/// The folder of what was gathered.
fn folder_of(gathered: Gathering) -> Result<Imported, AllocError>
    ensures { IfOk result (λ made. made.left_out ≡ gathered.left_out) }
{
    let Gathering {
        alloc,
        candidates,
        left_out,
        ..
    } = gathered;
    let mut writing = Writing {
        alloc,
        templates: Vec::new(alloc),
        routes: String::new(alloc),
        redirects: String::new(alloc),
        pages: 0,
        moved: 0,
        led_on: Vec::new(alloc),
    };
    writing.add_all(candidates)?;
    writing.finish(left_out)
}

/// The address of a site, as its files state it, or `NOWHERE`.
fn site_of(alloc: Global, files: &[SiteFile]) -> Result<Url, AllocError> {
    if let Some(site) = url_of(alloc, address_in(files))? {
        return Ok(site);
    }
    match url_of(alloc, NOWHERE)? {
        Some(site) => Ok(site),
        None => Err(AllocError),
    }
}

/// The folder of a site that shows the pages of a generator's files, each at the path at which that generator
/// links it. A page that leads on to another one at once becomes a redirect. The name of an `index.html`
/// becomes a redirect too.
pub fn import_of(alloc: Global, files: &[SiteFile]) -> Result<Imported, AllocError>
    ensures { IfOk result (λ made. IsImportOf made files.now) }
{
    let site = site_of(alloc, files)?;
    folder_of(gathered(alloc, site, files)?)
}
