//! Which limit a page exceeds that is over limit, and what to do.
//!
//! A node says only that a page is over limit: a format fixes its words. A page exceeds the depth to which
//! partials may nest, or the cost that it may have. If its partials cannot nest that deep, by the calls in
//! the folder's files, it is the cost.
ghost use Rattle.std.specs.Prelude.{◌≡◌};
ghost use Rattle.render.specs.Meaning.{max_nested};

use crate::folder::Folder;
use crate::template_reasons::calls_of;
use std::alloc::{AllocError, Global};
use std::collections::BTreeMap;

/// How many partials may nest in a page.
fn most_nested() -> usize
    ensures { result ≡ max_nested }
{
    32
}

/// A template or a partial of a folder: its kind and name with a space between, and its text.
#[derive(Clone, Copy)]
struct Source<'a> {
    key: &'a str,
    text: &'a str,
}

/// The template or partial that a command puts, if it puts one.
fn source_in(command: &str) -> Option<Source<'_>> {
    let (key, text) = command.strip_prefix("put ")?.split_once('\n')?;
    if key.starts_with("template ") || key.starts_with("partial ") {
        Some(Source { key, text })
    } else {
        None
    }
}

fn sources_of(alloc: Global, folder: &Folder) -> Result<Vec<Source<'_>>, AllocError> {
    let mut sources = Vec::new(alloc);
    for command in folder.commands.iter() {
        let text = str::from_utf8(command.text()).unwrap_or("");
        if let Some(source) = source_in(text) {
            sources.push(source)?;
        }
    }
    Ok(sources)
}

/// The number of each source, by its kind and name.
type Numbers = BTreeMap<String, usize>;

fn numbers_of(alloc: Global, sources: &[Source<'_>]) -> Result<Numbers, AllocError> {
    let mut numbers = BTreeMap::new(alloc);
    for (number, source) in sources.iter().enumerate() {
        drop(numbers.insert(String::from_str(alloc, source.key)?, number)?);
    }
    Ok(numbers)
}

fn partial_named(
    alloc: Global,
    numbers: &Numbers,
    name: &str,
) -> Result<Option<usize>, AllocError> {
    let key = format!(in alloc; "partial {name}")?;
    Ok(numbers.get(key.as_str()).copied())
}

/// The partials that a source calls, except those that do not exist.
fn called(alloc: Global, numbers: &Numbers, source: &Source<'_>) -> Result<Vec<usize>, AllocError> {
    let mut partials = Vec::new(alloc);
    for call in calls_of(alloc, source.text)?.iter() {
        if let Some(number) = partial_named(alloc, numbers, call.name)? {
            partials.push(number)?;
        }
    }
    Ok(partials)
}

/// How deep partials nest below one that calls `partials`. `depths` says how deep they nest below each.
fn depth_above(partials: &[usize], depths: &[usize]) -> usize {
    let mut deepest = 0usize;
    for number in partials {
        let below = depths.get(*number).copied().unwrap_or(0);
        deepest = deepest.max(below.saturating_add(1));
    }
    deepest
}

/// The same for all sources, one level deeper.
fn depths_above(
    alloc: Global,
    calls: &[Vec<usize>],
    depths: &[usize],
) -> Result<Vec<usize>, AllocError> {
    let mut above = Vec::new(alloc);
    for partials in calls {
        above.push(depth_above(partials, depths))?;
    }
    Ok(above)
}

/// How deep partials can nest below each source. The depth exceeds the number of sources if a partial comes
/// to call itself.
fn depths_of(alloc: Global, calls: &[Vec<usize>]) -> Result<Vec<usize>, AllocError> {
    let mut depths = vec![in alloc; 0usize; calls.len()]?;
    for _ in 0..=calls.len() {
        let above = depths_above(alloc, calls, &depths)?;
        if above.as_slice() == depths.as_slice() {
            return Ok(depths);
        }
        depths = above;
    }
    Ok(depths)
}

/// The templates and partials of a folder, the partials that each calls, and how deep these can nest.
#[derive(Drop)]
pub(crate) struct Nesting<'a> {
    sources: Vec<Source<'a>>,
    numbers: Numbers,
    calls: Vec<Vec<usize>>,
    depths: Vec<usize>,
}

impl<'a> Nesting<'a> {
    pub(crate) fn of(alloc: Global, folder: &'a Folder) -> Result<Nesting<'a>, AllocError> {
        let sources = sources_of(alloc, folder)?;
        let numbers = numbers_of(alloc, &sources)?;
        let mut calls = Vec::new(alloc);
        for source in &sources {
            calls.push(called(alloc, &numbers, source)?)?;
        }
        let depths = depths_of(alloc, &calls)?;
        Ok(Nesting {
            sources,
            numbers,
            calls,
            depths,
        })
    }

    /// How many templates and partials there are.
    pub(crate) fn len(&self) -> usize {
        self.sources.len()
    }

    /// The kind and the name of a number, with a space between.
    pub(crate) fn key(&self, number: usize) -> &'a str {
        match self.sources.get(number) {
            Some(source) => source.key,
            None => "",
        }
    }

    /// The number of a template, if it exists.
    pub(crate) fn template(&self, alloc: Global, name: &str) -> Result<Option<usize>, AllocError> {
        let key = format!(in alloc; "template {name}")?;
        Ok(self.numbers.get(key.as_str()).copied())
    }

    /// The numbers of the partials that a number calls.
    pub(crate) fn called_by(&self, number: usize) -> &[usize] {
        match self.calls.get(number) {
            Some(partials) => partials.as_slice(),
            None => &[],
        }
    }

    fn depth(&self, number: usize) -> usize {
        self.depths.get(number).copied().unwrap_or(0)
    }

    /// Whether partials can nest below a source without end.
    fn is_endless(&self, number: usize) -> bool {
        self.depth(number) > self.sources.len()
    }

    /// The first partial that a source calls and below which partials can nest without end; the source itself
    /// if there is none.
    fn endless_within(&self, number: usize) -> usize {
        for partial in self.called_by(number) {
            if self.is_endless(*partial) {
                return *partial;
            }
        }
        number
    }

    /// A partial that comes to call itself, below a source under which partials can nest without end. After
    /// as many steps as there are sources, one came twice.
    fn round_below(&self, number: usize) -> &'a str {
        let mut at = number;
        for _ in 0..self.sources.len() {
            at = self.endless_within(at);
        }
        self.key(at)
    }

    /// Why the page of a template is over limit, and what to do.
    pub(crate) fn reason(&self, alloc: Global, template: &str) -> Result<String, AllocError> {
        let number = self.template(alloc, template)?;
        let number = number.unwrap_or(self.sources.len());
        let (depth, most) = (self.depth(number), most_nested());
        if self.is_endless(number) {
            let partial = self.round_below(number);
            format!(in alloc;
                "the {partial} ends up calling itself, and partials may nest {most} deep: let data end that \
                 (an empty list in the innermost item), or take the call away; if they end it, {COST}"
            )
        } else if depth > most {
            format!(in alloc;
                "its partials can nest {depth} deep, and may {most} deep: put inner ones into those that \
                 call them; if data keep them from it, {COST}"
            )
        } else {
            String::from_str(alloc, COST)
        }
    }
}

/// Says that a page costs too much, and what to do.
const COST: &str =
    "it costs more than 1,000,000 (each tag, each item of a list and each byte printed is 1): part it, or \
     shorten its lists";
