//! Which part of a site a file is, by its path.
use crate::lines::before;
use command::Kind;

/// What a file of a folder is to the site.
#[derive(Clone, Copy)]
pub(crate) enum Role<'a> {
    /// The text of a template, a partial or data, and its name.
    Text(Kind, &'a str),
    Routes,
    Redirects,
    Removes,
    /// What an editor keeps of what was published.
    Published,
    /// Not part of a site on purpose: a name that begins with a dot or ends in `~`, or a `README`.
    PassedOver,
    /// Not part of a site, and why.
    Wrong(&'static str),
}

/// Why a file with a line break in its name is not part of a site.
const BROKEN: &str = "has a line break in its name: rename the file";

/// Whether a name in a path says that a file is not part of the site.
fn is_hidden(name: &str) -> bool {
    name.starts_with('.') || name.ends_with('~')
}

/// Whether the file or folder at a path below a site's folder is not part of the site on purpose: a name in
/// the path begins with a dot or ends in `~`, or it is a `README`.
pub fn is_passed_over(path: &str) -> bool {
    path.starts_with("README") || path.split('/').any(|name| is_hidden(name))
}

fn text_role<'a>(kind: Kind, rest: &'a str, ending: &str, wrong: &'static str) -> Role<'a> {
    match rest.strip_suffix(ending) {
        // a line break would end the command's line, and the rest of the name would be text
        Some(name) if name.contains('\n') => Role::Wrong(BROKEN),
        Some(name) if !name.is_empty() => Role::Text(kind, name),
        _ => Role::Wrong(wrong),
    }
}

/// The role of the file at a path below the folder.
pub(crate) fn role_of(path: &str) -> Role<'_> {
    if is_passed_over(path) {
        return Role::PassedOver;
    }
    match path {
        "routes" => return Role::Routes,
        "redirects" => return Role::Redirects,
        "removes" => return Role::Removes,
        "published" => return Role::Published,
        _ => {}
    }
    if let Some(rest) = path.strip_prefix("templates/") {
        return text_role(
            Kind::Template,
            rest,
            ".mustache",
            "is no .mustache file: rename it, or move it out of the folder",
        );
    }
    if let Some(rest) = path.strip_prefix("partials/") {
        return text_role(
            Kind::Partial,
            rest,
            ".mustache",
            "is no .mustache file: rename it, or move it out of the folder",
        );
    }
    if let Some(rest) = path.strip_prefix("data/") {
        return text_role(
            Kind::Data,
            rest,
            ".json",
            "is no .json file: rename it, or move it out of the folder",
        );
    }
    Role::Wrong(
        "is no part of a site (templates, partials, data, routes, redirects, removes): move it out of the \
         folder, or --ignore",
    )
}

/// Whether the file at a path below a site's folder says something of the site.
pub fn is_of_site(path: &str) -> bool {
    matches!(
        role_of(path),
        Role::Text(_, _) | Role::Routes | Role::Redirects | Role::Removes
    )
}

/// Whether the folder at a path below a site's folder is for files of the site, in it or further below.
pub fn is_part(path: &str) -> bool {
    matches!(before(path, '/'), "templates" | "partials" | "data")
}
