//! What is wrong with a folder beyond its files: routes that name what does not exist, redirects that lead
//! nowhere, partials that do not exist, and paths that readers take for one.

use crate::endless::endless;
use crate::finding::{Finding, Weight};
use crate::folder::{Reading, Redirect, Route, key_of};
use crate::place::Place;
use crate::reasons::{line_fault, warning_in};
use crate::tags::TagName;
use crate::unreached::mark_in;
use command::Kind;
use std::alloc::{AllocError, Global};
use std::collections::BTreeMap;

/// A route's template does not exist.
fn missing_template(alloc: Global, route: &Route) -> Result<Finding, AllocError> {
    let name = route.template.as_str();
    let reason = format!(in alloc;
        "there is no templates/{name}.mustache: make it, or name another"
    )?;
    line_fault(alloc, "routes", route.line, reason)
}

/// A route's data do not exist.
fn missing_data(alloc: Global, route: &Route) -> Result<Finding, AllocError> {
    let name = route.page_data.as_str();
    let reason = format!(in alloc; "there is no data/{name}.json: make it, or name another")?;
    line_fault(alloc, "routes", route.line, reason)
}

/// A path has a route, and so has the same path without its final slash.
fn two_paths(alloc: Global, route: &Route, bare: &str) -> Result<Finding, AllocError> {
    let path = route.path.as_str();
    let reason = format!(in alloc; "{path} and {bare} are two paths, which readers take for one")?;
    line_warning(alloc, "routes", route.line, reason)
}

/// A partial that is called does not exist.
fn missing_partial(alloc: Global, call: &TagName) -> Result<Finding, AllocError> {
    let name = call.name.as_str();
    let reason = format!(in alloc;
        "there is no partials/{name}.mustache, so nothing is printed here"
    )?;
    warning_in(alloc, call.file.as_str(), call.place, reason)
}

/// No data have this name.
fn missing_name(alloc: Global, tag: &TagName, name: &str) -> Result<Finding, AllocError> {
    let reason = format!(in alloc; "no data of this folder have the name `{name}`")?;
    warning_in(alloc, tag.file.as_str(), tag.place, reason)
}

/// A warning of a line of `routes` or `redirects`.
fn line_warning(
    alloc: Global,
    file: &str,
    line: usize,
    reason: String,
) -> Result<Finding, AllocError> {
    warning_in(alloc, file, Place { line, column: 1 }, reason)
}

impl Reading {
    /// Finds what is wrong with a folder whose files are all read.
    pub(crate) fn check(&mut self) -> Result<(), AllocError> {
        let mut findings = Vec::new(self.alloc);
        self.check_routes(&mut findings)?;
        self.check_redirects(&mut findings)?;
        self.check_slashes(&mut findings)?;
        self.check_marks(&mut findings)?;
        self.check_calls(&mut findings)?;
        self.check_names(&mut findings)?;
        self.folder.findings.append(&mut findings)
    }

    /// The line that puts a name of a kind; 0 if a file puts it, `None` if nothing does.
    fn line_of(&self, kind: Kind, name: &str) -> Result<Option<usize>, AllocError> {
        let key = key_of(self.alloc, kind, name)?;
        Ok(self.found.get(key.as_str()).copied())
    }

    /// Finds the routes that name what does not exist.
    fn check_routes(&self, findings: &mut Vec<Finding>) -> Result<(), AllocError> {
        for route in self.folder.routes.iter() {
            if self
                .line_of(Kind::Template, route.template.as_str())?
                .is_none()
            {
                findings.push(missing_template(self.alloc, route)?)?;
            }
            if self
                .line_of(Kind::Data, route.page_data.as_str())?
                .is_none()
            {
                findings.push(missing_data(self.alloc, route)?)?;
            }
        }
        Ok(())
    }

    /// The targets of redirects by their paths, except those whose paths have a route.
    fn targets(&self) -> Result<BTreeMap<String, String>, AllocError> {
        let mut targets = BTreeMap::new(self.alloc);
        for redirect in self.folder.redirects.iter() {
            if !self.has_route(redirect.path.as_str())? {
                let (path, target) = (redirect.path.clone()?, redirect.target.clone()?);
                drop(targets.insert(path, target)?);
            }
        }
        Ok(targets)
    }

    fn has_route(&self, path: &str) -> Result<bool, AllocError> {
        Ok(self.line_of(Kind::Route, path)?.is_some())
    }

    /// Why a target is no page of the folder, and leads to none.
    fn lost(
        &self,
        targets: &BTreeMap<String, String>,
        target: &str,
    ) -> Result<Option<String>, AllocError> {
        if self.has_route(target)? {
            return Ok(None);
        }
        if targets.contains_key(target) {
            return endless(self.alloc, targets, target);
        }
        if let Some(reason) = mark_in(self.alloc, target)? {
            return Ok(Some(reason));
        }
        Ok(Some(format!(in self.alloc; "no route of this folder has the path {target}")?))
    }

    /// Why nobody follows a redirect, if its path has a route; or why it leads to no page of the folder.
    fn astray(
        &self,
        targets: &BTreeMap<String, String>,
        redirect: &Redirect,
    ) -> Result<Option<String>, AllocError> {
        let path = redirect.path.as_str();
        if let Some(line) = self.line_of(Kind::Route, path)? {
            return Ok(Some(format!(in self.alloc;
                "{path} has a route too, in line {line} of routes: its page is shown, and nobody is led on"
            )?));
        }
        self.lost(targets, redirect.target.as_str())
    }

    /// Warns of redirects that nobody follows, and of those that lead to no page of the folder.
    fn check_redirects(&self, findings: &mut Vec<Finding>) -> Result<(), AllocError> {
        let targets = self.targets()?;
        for redirect in self.folder.redirects.iter() {
            if let Some(reason) = self.astray(&targets, redirect)? {
                findings.push(line_warning(self.alloc, "redirects", redirect.line, reason)?)?;
            }
        }
        Ok(())
    }

    /// Warns of paths that a link has to spell otherwise.
    fn check_marks(&self, findings: &mut Vec<Finding>) -> Result<(), AllocError> {
        for route in self.folder.routes.iter() {
            if let Some(reason) = mark_in(self.alloc, route.path.as_str())? {
                findings.push(line_warning(self.alloc, "routes", route.line, reason)?)?;
            }
        }
        for redirect in self.folder.redirects.iter() {
            if let Some(reason) = mark_in(self.alloc, redirect.path.as_str())? {
                findings.push(line_warning(self.alloc, "redirects", redirect.line, reason)?)?;
            }
        }
        Ok(())
    }

    /// Warns of paths that differ only by a final slash.
    fn check_slashes(&self, findings: &mut Vec<Finding>) -> Result<(), AllocError> {
        for route in self.folder.routes.iter() {
            let Some(bare) = route.path.as_str().strip_suffix('/') else {
                continue;
            };
            if self.line_of(Kind::Route, bare)?.is_some() {
                findings.push(two_paths(self.alloc, route, bare)?)?;
            }
        }
        Ok(())
    }

    /// Warns of partials that are called and do not exist.
    fn check_calls(&self, findings: &mut Vec<Finding>) -> Result<(), AllocError> {
        for call in self.calls.iter() {
            if self.line_of(Kind::Partial, call.name.as_str())?.is_none() {
                findings.push(missing_partial(self.alloc, call)?)?;
            }
        }
        Ok(())
    }

    /// The first part of a name that no data have.
    fn lacking<'a>(&self, name: &'a str) -> Option<&'a str> {
        name.split('.')
            .find(|part| !part.is_empty() && !self.keys.contains(*part))
    }

    /// Whether a file of data has a fault, so that not all keys are known.
    fn lacks_keys(&self) -> bool {
        self.folder.findings.iter().any(|found| found.weight == Weight::Fault
            && found.file.as_str().starts_with("data/"))
    }

    /// Warns of names that no data have, if the folder has data and all of them could be read.
    fn check_names(&self, findings: &mut Vec<Finding>) -> Result<(), AllocError> {
        if !self.has_data || self.lacks_keys() {
            return Ok(());
        }
        for tag in self.names.iter() {
            if let Some(name) = self.lacking(tag.name.as_str()) {
                findings.push(missing_name(self.alloc, tag, name)?)?;
            }
        }
        Ok(())
    }
}
