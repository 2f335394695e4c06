//! The field line that says who asks (RFC 7617, section 2).
ghost use Rattle.std.specs.Prelude.{◌≡◌, IfOk, string_bytes};
ghost use Rattle.std.specs.Option.{option_map};
ghost use Rattle.editor_http.specs.Authorities.{login_shown};
ghost use Rattle.editor_http.specs.Requests.{authorization_of, credentials_of};

use crate::authority::Login;
use base64::engine::general_purpose::STANDARD;
use std::alloc::{AllocError, Global};

/// A user and a password as one word.
fn credentials(alloc: Global, login: &Login) -> Result<String, AllocError>
    ensures { IfOk result (λ word. string_bytes word ≡ credentials_of (login_shown login.now)) }
{
    let mut bytes = Vec::from_slice(alloc, login.user.as_slice())?;
    bytes.push(b':')?;
    bytes.extend_from_slice(login.password.as_slice())?;
    STANDARD.encode(alloc, bytes.as_slice())
}

/// The field line of a login. Empty if there is none.
pub(crate) fn authorization(alloc: Global, login: &Option<Login>) -> Result<String, AllocError>
    ensures { IfOk result (λ line. string_bytes line ≡ authorization_of (option_map login_shown login.now)) }
{
    match login {
        Some(login) => {
            let word = credentials(alloc, login)?;
            format!(in alloc; "Authorization: Basic {word}\r\n")
        }
        None => Ok(String::new(alloc)),
    }
}
