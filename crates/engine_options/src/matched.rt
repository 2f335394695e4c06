//! What the words gave to one argument.
ghost use Rattle.std.specs.Prelude.{◌≡◌, ◌^◌, ℕ, List, Some, map, [], IfOk, true, is_some, unwrap_or};
ghost use Rattle.clap.specs.Words.{found_of, first_value, one_text, rows_of, all_of, IsUnsignedIn};
ghost use Rattle.engine_options.specs.Options.{IsNumberOf};
ghost use Rattle.engine_options.specs.ServeOptions.{SpellsBelow, is_set};

use clap::ArgMatches;
use std::alloc::{AllocError, Global};

/// The text of an argument that has one.
pub(crate) fn text_in<'a>(matches: &ArgMatches<'a>, id: &str) -> &'a str
    requires there { is_some (first_value (found_of matches.now) id.now) ≡ true }
    ensures { first_value (found_of matches.now) id.now ≡ Some result.now }
{
    match matches.get_str(id) {
        Some(text) => text,
        None => unreachable!(),
    }
}

/// The number of an argument that has one.
pub(crate) fn byte_in(matches: &ArgMatches<'_>, id: &str) -> u8
    requires there { SpellsBelow (2 ^ 8) (one_text (found_of matches.now) id.now) }
    ensures { IsNumberOf (one_text (found_of matches.now) id.now) (Some result) }
{
    match matches.get_one::<u8>(id) {
        Some(number) => number,
        None => unreachable!(),
    }
}

/// The number of an argument that has one.
pub(crate) fn number_in(matches: &ArgMatches<'_>, id: &str) -> u32
    requires there { SpellsBelow (2 ^ 32) (one_text (found_of matches.now) id.now) }
    ensures { IsNumberOf (one_text (found_of matches.now) id.now) (Some result) }
{
    match matches.get_one::<u32>(id) {
        Some(number) => number,
        None => unreachable!(),
    }
}

/// The number of an argument that may have one.
pub(crate) fn some_number_in(matches: &ArgMatches<'_>, id: &str) -> Option<u64>
    requires passed { (t : List ℕ) → one_text (found_of matches.now) id.now ≡ Some t
        → IsUnsignedIn 0 18446744073709551615 t }
    ensures { IsNumberOf (one_text (found_of matches.now) id.now) result }
{
    matches.get_one::<u64>(id)
}

/// Whether a flag was given.
pub(crate) fn flag_in(matches: &ArgMatches<'_>, id: &str) -> bool
    ensures { result ≡ is_set (one_text (found_of matches.now) id.now) }
{
    matches.get_one::<bool>(id).unwrap_or(false)
}

/// All texts of an argument that may have several.
pub(crate) fn texts_in<'a>(
    alloc: Global,
    matches: &ArgMatches<'a>,
    id: &str,
) -> Result<Vec<&'a str>, AllocError>
    ensures { IfOk result (λ v. map (λ s. s.now) v.items
        ≡ unwrap_or (all_of id.now (rows_of (found_of matches.now))) []) }
{
    match matches.get_strs(id) {
        Some(given) => Vec::from_slice(alloc, given),
        None => Ok(Vec::new(alloc)),
    }
}
