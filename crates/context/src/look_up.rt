//! `resolve` has no condition on names.

ghost use Rattle.std.specs.Prelude.{◌≡◌, ◌<◌, option_map, Some, MatchOption, IfSome, [], ◌∷◌, length};
ghost use Rattle.context.specs.View.{data_view};
ghost use Rattle.context.specs.Stack.{stack_of};
ghost use Rattle.context.specs.LookUp.{look_up, nearest, parts, within};

use crate::tree::Data;

/// A stack of borrowed data: the top, and the frame below it.
#[derive(Clone, Copy)]
pub struct Frame<'a> {
    pub data: &'a Data,
    pub below: Option<&'a Frame<'a>>,
}

/// What the first hash that has the key, from the top down, has there.
fn nearest<'a>(frame: &Frame<'a>, key: &str) -> Option<&'a Data>
    ensures { option_map (λ v. data_view v.now) result ≡ nearest key.now (stack_of frame.now) }
{
    match frame.data.member(key) {
        Some(found) => Some(found),
        None => match frame.below {
            Some(below) => nearest(below, key),
            None => None,
        },
    }
}

/// A path cut at its first dot.
fn cut_at_dot(path: &str) -> Option<(&str, &str)>
    ensures parts { MatchOption result (parts path.now ≡ path.now ∷ [])
        (λ x. parts path.now ≡ x.0.now ∷ parts x.1.now) }
    ensures shorter { IfSome result (λ x. length x.1.now < length path.now) }
{
    // Most names have no dot, which bytes show sooner than characters.
    if !path.as_bytes().contains(&b'.') {
        return None;
    }
    path.split_once('.')
}

/// What the parts of a path lead to, from one value.
fn within<'a>(value: &'a Data, path: &str) -> Option<&'a Data>
    ensures { option_map (λ v. data_view v.now) result
        ≡ within (Some (data_view value.now)) (parts path.now) }
{
    match cut_at_dot(path) {
        None => value.member(path),
        Some((first, rest)) => match value.member(first) {
            Some(found) => within(found, rest),
            None => None,
        },
    }
}

/// What a name means in a stack of data (mustache(5), "Variables" and "Dotted names").
#[tactic(auto, unfolding(crate::specs::LookUp::look_up))]
pub fn resolve<'a>(frame: &Frame<'a>, name: &str) -> Option<&'a Data>
    ensures { option_map (λ v. data_view v.now) result ≡ look_up name.now (stack_of frame.now) }
{
    if name == "." {
        return Some(frame.data);
    }
    match cut_at_dot(name) {
        None => nearest(frame, name),
        Some((first, rest)) => match nearest(frame, first) {
            Some(start) => within(start, rest),
            None => None,
        },
    }
}
