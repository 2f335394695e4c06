//! The path of a file's page.
ghost use Rattle.std.specs.Prelude.{IfOk, string_bytes};
ghost use Rattle.editor_import.specs.Routes.{IsRoute};

use std::alloc::{AllocError, Global};

/// The path at which generators link the page of a file below their output's folder. An `index.html` has the
/// path of its folder, with a slash at its end.
pub fn route_of(alloc: Global, file: &str) -> Result<String, AllocError>
    ensures { IfOk result (λ path. IsRoute (string_bytes path) file.now) }
{
    let path = format!(in alloc; "/{file}")?;
    match path.as_str().strip_suffix("/index.html") {
        Some(folder) => format!(in alloc; "{folder}/"),
        None => Ok(path),
    }
}
