//! A host, and the login that is spelled before it.
ghost use Rattle.std.specs.Prelude.{◌≡◌, IfOk, string_bytes};
ghost use Rattle.std.specs.Option.{option_map};
ghost use Rattle.percent_encoding.specs.Percent.{percent_decode as decoded_of};
ghost use Rattle.editor_http.specs.Authorities.{login_of, login_before, host_in, login_shown};

use percent_encoding::percent_decode;
use std::alloc::{AllocError, Global};

/// A user and a password. The type has no `Debug` and no `Display`, so that neither is printed by accident.
#[derive(Drop)]
pub struct Login {
    pub user: Vec<u8>,
    pub password: Vec<u8>,
}

/// A host with its port, and the login to send there, if any.
#[derive(Drop)]
pub struct Authority {
    pub login: Option<Login>,
    pub host: String,
}

/// The bytes of a text without its escapes.
fn decoded(alloc: Global, text: &str) -> Result<Vec<u8>, AllocError>
    ensures { IfOk result (λ bytes. bytes.items ≡ decoded_of text.now) }
{
    let mut bytes = Vec::new(alloc);
    percent_decode(text.as_bytes()).append_to(&mut bytes)?;
    Ok(bytes)
}

fn login_by(alloc: Global, user: &str, password: &str) -> Result<Login, AllocError>
    ensures { IfOk result (λ login. login_shown login ≡ (decoded_of user.now, decoded_of password.now)) }
{
    Ok(Login {
        user: decoded(alloc, user)?,
        password: decoded(alloc, password)?,
    })
}

/// A user, and a password after the first colon. Without a colon the password is empty.
fn login_in(alloc: Global, text: &str) -> Result<Login, AllocError>
    ensures { IfOk result (λ login. login_shown login ≡ login_of text.now) }
{
    match text.split_once(':') {
        Some((user, password)) => login_by(alloc, user, password),
        None => login_by(alloc, text, ""),
    }
}

/// The login before the first at sign, if there is one, and the host.
pub fn authority_in(alloc: Global, text: &str) -> Result<Authority, AllocError>
    ensures login { IfOk result (λ found. option_map login_shown found.login ≡ login_before text.now) }
    ensures host { IfOk result (λ found. string_bytes found.host ≡ host_in text.now) }
{
    match text.split_once('@') {
        Some((before, host)) => Ok(Authority {
            login: Some(login_in(alloc, before)?),
            host: String::from_str(alloc, host)?,
        }),
        None => Ok(Authority {
            login: None,
            host: String::from_str(alloc, text)?,
        }),
    }
}
