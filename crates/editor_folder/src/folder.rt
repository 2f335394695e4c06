//! A folder's files, each by its role, and the lines of `routes`, `redirects` and `removes`.

use crate::file::SiteFile;
use crate::finding::Finding;
use crate::keys::keys_of;
use crate::lines::{
    Line, RedirectLine, RouteLine, kind_word, lines_in, redirect_in, removal_in, route_in,
};
use crate::place::Place;
use crate::reasons::{fault_in, file_fault, no_text};
use crate::roles::{Role, role_of};
use crate::tags::{TagName, add_keys, doubled_keys, push_tags};
use crate::template_reasons::{calls_of, names_of};
use command::{CommandFault, Kind};
use editor_command::{CommandText, Refusal};
use std::alloc::{AllocError, Global};
use std::collections::{BTreeMap, BTreeSet};

/// A page of a folder: its path, what it names, and its line of `routes`.
#[derive(Drop)]
pub struct Route {
    pub path: String,
    pub template: String,
    pub page_data: String,
    pub line: usize,
}

/// A page of a folder that moved: its path, the path that it leads to, and its line of `redirects`.
#[derive(Drop)]
pub struct Redirect {
    pub path: String,
    pub target: String,
    pub line: usize,
}

/// What a folder is: its commands in order, except the release; its pages, and those that moved; and what is
/// wrong with it.
#[derive(Drop)]
pub struct Folder {
    pub commands: Vec<CommandText>,
    pub routes: Vec<Route>,
    pub redirects: Vec<Redirect>,
    pub findings: Vec<Finding>,
}

/// A folder while it is read.
#[derive(Drop)]
pub(crate) struct Reading {
    pub alloc: Global,
    pub folder: Folder,
    /// What is put, as a kind and a name with a space between; and its line, 0 if a file puts it.
    pub found: BTreeMap<String, usize>,
    /// What is removed, in the same way, and its line of `removes`.
    pub removed: BTreeMap<String, usize>,
    pub calls: Vec<TagName>,
    /// The names of values that templates and partials have.
    pub names: Vec<TagName>,
    /// The keys of all data. `has_data` says whether there are data.
    pub keys: BTreeSet<String>,
    pub has_data: bool,
}

/// A kind and a name, with a space between.
pub(crate) fn key_of(alloc: Global, kind: Kind, name: &str) -> Result<String, AllocError> {
    let kind = kind_word(kind);
    format!(in alloc; "{kind} {name}")
}

impl Reading {
    fn new(alloc: Global) -> Reading {
        Reading {
            alloc,
            folder: Folder {
                commands: Vec::new(alloc),
                routes: Vec::new(alloc),
                redirects: Vec::new(alloc),
                findings: Vec::new(alloc),
            },
            found: BTreeMap::new(alloc),
            removed: BTreeMap::new(alloc),
            calls: Vec::new(alloc),
            names: Vec::new(alloc),
            keys: BTreeSet::new(alloc),
            has_data: false,
        }
    }

    pub(crate) fn find(&mut self, finding: Finding) -> Result<(), AllocError> {
        self.folder.findings.push(finding)?;
        Ok(())
    }

    /// Takes a text as a command, or returns why it is not one.
    fn judge(&mut self, text: Vec<u8>) -> Result<Option<Refusal>, AllocError> {
        match CommandText::of(self.alloc, text)? {
            Ok(command) => {
                self.folder.commands.push(command)?;
                Ok(None)
            }
            Err(refusal) => Ok(Some(refusal)),
        }
    }

    /// Takes the command of a file, by its head and the file's text, or returns why it is not one.
    fn judge_file(&mut self, head: &str, body: &str) -> Result<Option<Refusal>, AllocError> {
        let mut text = Vec::from_slice(self.alloc, head.as_bytes())?;
        text.extend_from_slice(body.as_bytes())?;
        self.judge(text)
    }

    /// Finds that a file is not UTF-8 from a byte on.
    fn no_text(&mut self, file: &SiteFile, at: usize) -> Result<(), AllocError> {
        let finding = no_text(self.alloc, file.path.as_str(), &file.bytes, at)?;
        self.find(finding)
    }

    /// Takes the command of a file, or finds why it is not one. The result says whether it is one.
    fn judge_body(&mut self, path: &str, head: &str, body: &str) -> Result<bool, AllocError> {
        match self.judge_file(head, body)? {
            Some(refusal) => {
                let finding = file_fault(self.alloc, path, head.len(), body, refusal)?;
                self.find(finding)?;
                Ok(false)
            }
            None => Ok(true),
        }
    }

    /// Takes the text of a template, a partial or data, and the names in it.
    fn body(&mut self, kind: Kind, name: &str, path: &str, body: &str) -> Result<(), AllocError> {
        let word = kind_word(kind);
        let head = format!(in self.alloc; "put {word} {name}\n")?;
        if !self.judge_body(path, head.as_str(), body)? {
            return Ok(());
        }
        match kind {
            Kind::Data => self.keys(path, body),
            _ => self.tags(path, body),
        }
    }

    /// Takes the keys of data.
    fn keys(&mut self, path: &str, body: &str) -> Result<(), AllocError> {
        self.has_data = true;
        let keys = keys_of(self.alloc, body)?;
        let mut doubled = doubled_keys(self.alloc, path, body, &keys)?;
        add_keys(&mut self.keys, keys)?;
        self.folder.findings.append(&mut doubled)
    }

    /// Takes a file that is the text of a template, a partial or data.
    fn text(&mut self, kind: Kind, name: &str, file: &SiteFile) -> Result<(), AllocError> {
        let _ = self.found.insert(key_of(self.alloc, kind, name)?, 0)?;
        match str::from_utf8(&file.bytes) {
            Ok(body) => self.body(kind, name, file.path.as_str(), body),
            Err(wrong) => self.no_text(file, wrong.valid_up_to()),
        }
    }

    /// Takes the partials that a text calls, and the names of values that it has.
    fn tags(&mut self, path: &str, body: &str) -> Result<(), AllocError> {
        let calls = calls_of(self.alloc, body)?;
        push_tags(self.alloc, &mut self.calls, path, body, &calls)?;
        let names = names_of(self.alloc, body)?;
        push_tags(self.alloc, &mut self.names, path, body, &names)
    }

    /// A fault of a line.
    fn line_fault(&mut self, file: &str, line: usize, reason: &str) -> Result<(), AllocError> {
        let place = Some(Place { line, column: 1 });
        let finding = fault_in(self.alloc, file, place, reason)?;
        self.find(finding)
    }

    /// Takes the command of a line of `routes`, or returns why it is not one.
    fn judge_route(&mut self, route: &RouteLine<'_>) -> Result<Option<Refusal>, AllocError> {
        let (path, template, page_data) = (route.path, route.template, route.page_data);
        let text = format!(in self.alloc; "put route {path} {template} {page_data}\n")?;
        self.judge(text.into_bytes())
    }

    /// Notes what a line of `routes` says.
    fn add_route(&mut self, route: &RouteLine<'_>, line: usize) -> Result<(), AllocError> {
        self.folder.routes.push(Route {
            path: String::from_str(self.alloc, route.path)?,
            template: String::from_str(self.alloc, route.template)?,
            page_data: String::from_str(self.alloc, route.page_data)?,
            line,
        })?;
        Ok(())
    }

    /// Takes a line of `routes`.
    fn route(&mut self, line: &Line<'_>) -> Result<(), AllocError> {
        let Some(route) = route_in(line) else {
            return self.line_fault(
                "routes",
                line.number,
                "a line is PATH TEMPLATE DATA, three words",
            );
        };
        if let Some(refusal) = self.judge_route(&route)? {
            return self.line_fault("routes", line.number, line_reason(&refusal.fault));
        }
        self.add_route(&route, line.number)?;
        self.twice("routes", Kind::Route, route.path, line.number)
    }

    /// Takes the command of a line of `redirects`, or returns why it is not one.
    fn judge_redirect(
        &mut self,
        redirect: &RedirectLine<'_>,
    ) -> Result<Option<Refusal>, AllocError> {
        let (path, target) = (redirect.path, redirect.target);
        let text = format!(in self.alloc; "put redirect {path} {target}\n")?;
        self.judge(text.into_bytes())
    }

    /// Notes what a line of `redirects` says.
    fn add_redirect(&mut self, redirect: &RedirectLine<'_>, line: usize) -> Result<(), AllocError> {
        self.folder.redirects.push(Redirect {
            path: String::from_str(self.alloc, redirect.path)?,
            target: String::from_str(self.alloc, redirect.target)?,
            line,
        })?;
        Ok(())
    }

    /// Takes a line of `redirects`.
    fn redirect(&mut self, line: &Line<'_>) -> Result<(), AllocError> {
        let Some(redirect) = redirect_in(line) else {
            return self.line_fault("redirects", line.number, "a line is PATH TARGET, two words");
        };
        if self.judge_redirect(&redirect)?.is_some() {
            return self.line_fault("redirects", line.number, REDIRECT_REASON);
        }
        self.add_redirect(&redirect, line.number)?;
        self.twice("redirects", Kind::Redirect, redirect.path, line.number)
    }

    /// Notes the line of a path, and finds an earlier line with that path.
    fn twice(&mut self, file: &str, kind: Kind, path: &str, line: usize) -> Result<(), AllocError> {
        let key = key_of(self.alloc, kind, path)?;
        if let Some(before) = self.found.insert(key, line)? {
            let word = kind_word(kind);
            let reason = format!(in self.alloc;
                "the {word} {path} stands in line {before} already: take one of both away"
            )?;
            return self.line_fault(file, line, reason.as_str());
        }
        Ok(())
    }

    /// Takes the command of a line of `removes`, or returns why it is not one.
    fn judge_removal(&mut self, kind: Kind, name: &str) -> Result<Option<Refusal>, AllocError> {
        let word = kind_word(kind);
        let text = format!(in self.alloc; "remove {word} {name}\n")?;
        self.judge(text.into_bytes())
    }

    /// Takes a line of `removes`.
    fn removal(&mut self, line: &Line<'_>) -> Result<(), AllocError> {
        let Some((kind, name)) = removal_in(line) else {
            return self.line_fault(
                "removes",
                line.number,
                "a line is KIND NAME, two words, KIND one of template, partial, data, route and redirect",
            );
        };
        if let Some(refusal) = self.judge_removal(kind, name)? {
            return self.line_fault("removes", line.number, line_reason(&refusal.fault));
        }
        self.removed_once(kind, name, line.number)
    }

    /// A fault of a removal: the folder puts the same.
    fn put_too(&mut self, kind: Kind, name: &str, line: usize) -> Result<(), AllocError> {
        let word = kind_word(kind);
        let reason = format!(in self.alloc;
            "the {word} {name} is put by this folder too: take one of both away"
        )?;
        self.line_fault("removes", line, reason.as_str())
    }

    /// Notes a removal, and finds that the folder puts the same or removes it twice.
    fn removed_once(&mut self, kind: Kind, name: &str, line: usize) -> Result<(), AllocError> {
        let key = key_of(self.alloc, kind, name)?;
        if self.found.contains_key(key.as_str()) {
            return self.put_too(kind, name, line);
        }
        if let Some(before) = self.removed.insert(key, line)? {
            let word = kind_word(kind);
            let reason = format!(in self.alloc;
                "the {word} {name} is removed in line {before} already: take one of both away"
            )?;
            return self.line_fault("removes", line, reason.as_str());
        }
        Ok(())
    }

    /// Takes a line of `routes`, `redirects` or `removes`.
    fn line(&mut self, line: &Line<'_>, of: Lines) -> Result<(), AllocError> {
        match of {
            Lines::Routes => self.route(line),
            Lines::Redirects => self.redirect(line),
            Lines::Removes => self.removal(line),
        }
    }

    /// Takes `routes`, `redirects` or `removes`.
    fn lines(&mut self, file: &SiteFile, of: Lines) -> Result<(), AllocError> {
        let text = match str::from_utf8(&file.bytes) {
            Ok(text) => text,
            Err(wrong) => return self.no_text(file, wrong.valid_up_to()),
        };
        for line in lines_in(self.alloc, text)?.iter() {
            self.line(line, of)?;
        }
        Ok(())
    }

    /// Takes a file by its role, if it is of this pass.
    fn file(&mut self, pass: Pass, file: &SiteFile) -> Result<(), AllocError> {
        match (pass, role_of(file.path.as_str())) {
            (Pass::Texts(of), Role::Text(kind, name)) if of == kind => self.text(kind, name, file),
            (Pass::Lines(Lines::Routes), Role::Routes) => self.lines(file, Lines::Routes),
            (Pass::Lines(Lines::Redirects), Role::Redirects) => self.lines(file, Lines::Redirects),
            (Pass::Lines(Lines::Removes), Role::Removes) => self.lines(file, Lines::Removes),
            (Pass::Others, Role::Wrong(reason)) => {
                let finding = fault_in(self.alloc, file.path.as_str(), None, reason)?;
                self.find(finding)
            }
            _ => Ok(()),
        }
    }

    /// Takes all files, pass by pass, and finds what is wrong beyond them.
    fn files(&mut self, files: &[SiteFile]) -> Result<(), AllocError> {
        for pass in PASSES {
            for file in files {
                self.file(pass, file)?;
            }
        }
        self.check()
    }
}

/// The files whose lines are commands.
#[derive(Clone, Copy)]
enum Lines {
    Routes,
    Redirects,
    Removes,
}

/// The files that a pass over the folder takes.
#[derive(Clone, Copy)]
enum Pass {
    Texts(Kind),
    Lines(Lines),
    Others,
}

/// The passes in the order of their commands.
const PASSES: [Pass; 7] = [
    Pass::Texts(Kind::Template),
    Pass::Texts(Kind::Partial),
    Pass::Texts(Kind::Data),
    Pass::Lines(Lines::Routes),
    Pass::Lines(Lines::Redirects),
    Pass::Lines(Lines::Removes),
    Pass::Others,
];

/// Why the command of a line of `redirects` is invalid, and what to do.
const REDIRECT_REASON: &str =
    "a path and its target begin with /, with neither /_ nor /@, have 200 bytes at most, and no blank; a \
     target begins with only one /";

/// Why a line's command is invalid, and what to do.
fn line_reason(fault: &CommandFault) -> &'static str {
    match fault {
        CommandFault::Path => {
            "a path begins with /, with neither /_ nor /@, has 200 bytes at most, and no blank"
        }
        _ => { "a name is 1 to 64 of the letters a to z and A to Z, digits, _ - . and /" }
    }
}

/// Reads a folder: all its commands, and all that is wrong with it. Texts that are not commands are left out.
pub fn folder_of(alloc: Global, files: &[SiteFile]) -> Result<Folder, AllocError> {
    let mut reading = Reading::new(alloc);
    reading.files(files)?;
    Ok(reading.folder)
}
