//! The file of a page that moved, in a static copy.
ghost use Rattle.std.specs.Prelude.{◌≡◌, IfOk, string_bytes};
ghost use Rattle.editor_folder.specs.Moved.{moved_page};

use http_read::ESCAPED;
use percent_encoding::utf8_percent_encode;
use render::escape_into;
use std::alloc::{AllocError, Global};

/// A page that leads on to a target, at once and by a link, and names it as the canonical address (RFC 6596).
pub(crate) fn moved_page(alloc: Global, target: &str) -> Result<String, AllocError>
    ensures { IfOk result (λ page. string_bytes page ≡ moved_page target.now) }
{
    let url = utf8_percent_encode(target, ESCAPED);
    let mut name = String::new(alloc);
    escape_into(target, &mut name)?;
    format!(in alloc;
        "<!DOCTYPE html>\n\
         <meta charset=\"utf-8\">\n\
         <link rel=\"canonical\" href=\"{url}\">\n\
         <meta http-equiv=\"refresh\" content=\"0; url={url}\">\n\
         <title>Moved</title>\n\
         <p>Moved to <a href=\"{url}\">{name}</a></p>\n"
    )
}
