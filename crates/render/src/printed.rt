ghost use Rattle.std.specs.Prelude.{◌≡◌, option_map};
ghost use Rattle.context.specs.View.{data_view};
ghost use Rattle.render.specs.Printed.{printed};

use context::Data;
use itoa::Buffer;

/// The text that a value prints; nothing if it is missing. A number's digits are written to the buffer.
pub(crate) fn printed<'a>(value: Option<&'a Data>, buffer: &'a mut Buffer) -> &'a str
    ensures { result.now ≡ printed (option_map (λ v. data_view v.now) value.entry) }
{
    match value {
        Some(Data::Text(text)) => text.as_str(),
        Some(Data::Int(number)) => buffer.format(*number),
        Some(Data::Bool(true)) => "true",
        Some(Data::Bool(false)) => "false",
        None | Some(Data::Null | Data::List(_) | Data::Hash(_)) => "",
    }
}
