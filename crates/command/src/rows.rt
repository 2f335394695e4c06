ghost use Rattle.std.specs.Prelude.{◌≡◌, ◌<◌, ◌++◌, ◌∷◌, [], option_map, codes, Some, None};
ghost use Rattle.command.specs.Cuts.{after_front, cut_at};
ghost use Rattle.command.specs.Rows.{is_word, named, kind_word, remove_of, removes_of, route_of, redirect_of};
ghost use Rattle.command.specs.Rows.{release_of, older_row_of, row_of};
ghost use Rattle.command.specs.View.{kind_view, row_view, pair_view};

use crate::commands::Kind;

/// A command text by its row of the table: the words of its first line that vary, and what follows that line.
#[derive(Clone, Copy)]
pub(crate) enum Row<'a> {
    Template {
        name: &'a str,
        body: &'a str,
    },
    Partial {
        name: &'a str,
        body: &'a str,
    },
    Data {
        name: &'a str,
        body: &'a str,
    },
    Route {
        path: &'a str,
        template: &'a str,
        page_data: &'a str,
    },
    Redirect {
        path: &'a str,
        target: &'a str,
    },
    Remove {
        kind: Kind,
        name: &'a str,
    },
    Release,
}

fn after<'a>(text: &'a str, front: &str) -> Option<&'a str>
    ensures { option_map (λ rest. rest.now) result ≡ after_front front.now text.now }
{
    text.strip_prefix(front)
}

fn cut(text: &str, at: char) -> Option<(&str, &str)>
    requires { at < 128 }
    ensures { option_map pair_view result ≡ cut_at at text.now }
{
    text.split_once(at)
}

fn is_word(text: &str) -> bool
    ensures { result ≡ is_word text.now }
{
    text.as_bytes().iter().all(|b| *b != b' ' && *b != b'\n')
}

/// The word after a front, up to a newline, and what follows it.
fn named<'a>(text: &'a str, front: &str) -> Option<(&'a str, &'a str)>
    ensures { option_map pair_view result ≡ named front.now text.now }
{
    let rest = after(text, front)?;
    let (name, body) = cut(rest, '\n')?;
    if is_word(name) {
        Some((name, body))
    } else {
        None
    }
}

fn route(text: &str) -> Option<Row<'_>>
    ensures { option_map row_view result ≡ route_of text.now }
{
    let rest = after(text, "put route ")?;
    let (path, rest) = cut(rest, ' ')?;
    let (template, rest) = cut(rest, ' ')?;
    let (page_data, body) = cut(rest, '\n')?;
    if is_word(path) && is_word(template) && is_word(page_data) && body.is_empty() {
        Some(Row::Route {
            path,
            template,
            page_data,
        })
    } else {
        None
    }
}

fn redirect(text: &str) -> Option<Row<'_>>
    ensures { option_map row_view result ≡ redirect_of text.now }
{
    let rest = after(text, "put redirect ")?;
    let (path, rest) = cut(rest, ' ')?;
    let (target, body) = cut(rest, '\n')?;
    if is_word(path) && is_word(target) && body.is_empty() {
        Some(Row::Redirect { path, target })
    } else {
        None
    }
}

/// The front of a remove of that kind, up to the name.
fn remove_front(kind: Kind) -> &'static str
    ensures { result.now ≡ codes "remove " ++ (kind_word (kind_view kind) ++ (32 ∷ [])) }
{
    match kind {
        Kind::Template => "remove template ",
        Kind::Partial => "remove partial ",
        Kind::Data => "remove data ",
        Kind::Route => "remove route ",
        Kind::Redirect => "remove redirect ",
    }
}

fn remove(text: &str, kind: Kind) -> Option<Row<'_>>
    ensures { option_map row_view result ≡ remove_of (kind_view kind) text.now }
{
    let (name, after) = named(text, remove_front(kind))?;
    if after.is_empty() {
        Some(Row::Remove { kind, name })
    } else {
        None
    }
}

/// The row of a remove of any kind except a redirect.
fn removed(text: &str) -> Option<Row<'_>>
    ensures { option_map row_view result ≡ removes_of text.now }
{
    if let Some(row) = remove(text, Kind::Template) {
        return Some(row);
    }
    if let Some(row) = remove(text, Kind::Partial) {
        return Some(row);
    }
    if let Some(row) = remove(text, Kind::Data) {
        return Some(row);
    }
    remove(text, Kind::Route)
}

fn release(text: &str) -> Option<Row<'_>>
    ensures { option_map row_view result ≡ release_of text.now }
{
    if text == "release\n" {
        Some(Row::Release)
    } else {
        None
    }
}

/// The row that a text spelled before there were redirects.
fn older_row(text: &str) -> Option<Row<'_>>
    ensures { option_map row_view result ≡ older_row_of text.now }
{
    if let Some((name, body)) = named(text, "put template ") {
        return Some(Row::Template { name, body });
    }
    if let Some((name, body)) = named(text, "put partial ") {
        return Some(Row::Partial { name, body });
    }
    if let Some((name, body)) = named(text, "put data ") {
        return Some(Row::Data { name, body });
    }
    if let Some(row) = route(text) {
        return Some(row);
    }
    if let Some(row) = removed(text) {
        return Some(row);
    }
    release(text)
}

/// The row that a text spells.
pub(crate) fn row_in(text: &str) -> Option<Row<'_>>
    ensures { option_map row_view result ≡ row_of text.now }
{
    if let Some(row) = older_row(text) {
        return Some(row);
    }
    if let Some(row) = redirect(text) {
        return Some(row);
    }
    remove(text, Kind::Redirect)
}
