ghost use Rattle.std.specs.Prelude.{◌≡◌, ◌≢◌, ◌≤◌, length, Some, Ok, Err, IfOk, IfErr, if◌then◌else◌};
ghost use Rattle.site_ids.specs.declared.TheConstants.{TICKET_BYTES};
ghost use Rattle.mustache_parse.specs.Template.{IsTemplateOf};
ghost use Rattle.mustache_parse.specs.Tree.{tree_of};
ghost use Rattle.mustache_scan.specs.declared.fault.TemplateFault.{TemplateFault};
ghost use Rattle.command.specs.Action.{Order};
ghost use Rattle.command.specs.Reading.{is_name, is_path, is_removable, wrong_remove, row_reading};
ghost use Rattle.command.specs.Reading.{text_reading, ticket_of, value_reading, TakesMemory};
ghost use Rattle.command.specs.Rows.{Row as TextRow, release_row, template_row, partial_row, data_row};
ghost use Rattle.command.specs.Rows.{route_row, redirect_row, remove_row, row_of};
ghost use Rattle.command.specs.Standing.{StandsFor, IsActionOf};
ghost use Rattle.command.specs.View.{kind_view, row_view};
ghost use Rattle.command.specs.Written.{HasLine};

use crate::commands::{Action, Command, Kind};
use crate::fault::CommandFault;
use crate::names::{is_name, is_path, is_target};
use crate::rows::{Row, row_in};
use byteorder::{BigEndian, ByteOrder};
use context::{Data, DataFault};
use mustache_parse::{FaultKind, Template, parse};
use site_ids::{MAX_VALUE, TICKET_BYTES, Ticket};
use std::alloc::Global;

/// Reads a value: its command, or the first of its faults in their order.
pub fn read(alloc: Global, value: &[u8]) -> Result<Command, CommandFault>
    ensures ok { IfOk result (λ c. (o : Order) × (value_reading value.now ≡ Ok o) × StandsFor c o) }
    ensures err { IfErr result (λ e. e ≢ CommandFault.OutOfMemory → value_reading value.now ≡ Err e) }
    ensures line { IfErr result (λ e. e ≢ CommandFault.OutOfMemory → HasLine e) }
    ensures memory { IfErr result (λ e. e ≡ CommandFault.OutOfMemory → TakesMemory value.now) }
{
    if value.len() > MAX_VALUE {
        return Err(CommandFault::TooLong);
    }
    if value.len() < TICKET_BYTES {
        return Err(CommandFault::Form);
    }
    let Ok(text) = str::from_utf8(&value[TICKET_BYTES..]) else {
        return Err(CommandFault::Form);
    };
    let action = action_of(alloc, text)?;
    Ok(Command {
        ticket: ticket(value),
        action,
    })
}

/// The ticket of a value: the editor's number and the command's, big endian, in its first 12 bytes.
pub fn ticket(value: &[u8]) -> Ticket
    requires { TICKET_BYTES ≤ length value.now }
    ensures { result ≡ ticket_of value.now }
{
    Ticket {
        editor: BigEndian::read_u32(value),
        number: BigEndian::read_u64(&value[4..]),
    }
}

fn action_of(alloc: Global, text: &str) -> Result<Action, CommandFault>
    ensures ok { IfOk result (λ a. IsActionOf a (text_reading (row_of text.now))) }
    ensures err { IfErr result (λ e. e ≢ CommandFault.OutOfMemory → text_reading (row_of text.now) ≡ Err e) }
    ensures line { IfErr result (λ e. e ≢ CommandFault.OutOfMemory → HasLine e) }
    ensures memory { IfErr result (λ e. e ≡ CommandFault.OutOfMemory
        → (row : TextRow) × (row_of text.now ≡ Some row) × (row ≢ release_row)) }
{
    match row_in(text) {
        Some(row) => row_action(alloc, row),
        None => Err(CommandFault::Form),
    }
}

/// The action of a row of the table.
fn row_action(alloc: Global, row: Row<'_>) -> Result<Action, CommandFault>
    ensures ok { IfOk result (λ a. IsActionOf a (row_reading (row_view row.entry))) }
    ensures err { IfErr result (λ e. e ≢ CommandFault.OutOfMemory
        → row_reading (row_view row.entry) ≡ Err e) }
    ensures line { IfErr result (λ e. e ≢ CommandFault.OutOfMemory → HasLine e) }
    ensures memory { IfErr result (λ e. e ≡ CommandFault.OutOfMemory → row_view row.entry ≢ release_row) }
{
    match row {
        Row::Template { name, body } => {
            let (name, template) = named_text(alloc, name, body)?;
            Ok(Action::PutTemplate { name, template })
        }
        Row::Partial { name, body } => {
            let (name, template) = named_text(alloc, name, body)?;
            Ok(Action::PutPartial { name, template })
        }
        Row::Data { name, body } => data_put(alloc, name, body),
        Row::Route {
            path,
            template,
            page_data,
        } => route_put(alloc, path, template, page_data),
        Row::Redirect { path, target } => redirect_put(alloc, path, target),
        Row::Remove { kind, name } => removal(alloc, kind, name),
        Row::Release => Ok(Action::Release),
    }
}

/// The template of a text that is put.
fn parsed(alloc: Global, body: &str) -> Result<Template, CommandFault>
    ensures ok { IfOk result (λ t. IsTemplateOf t body.now) }
    ensures err { IfErr result (λ e. e ≢ CommandFault.OutOfMemory
        → (f : TemplateFault) × (tree_of body.now ≡ Err f) × (e ≡ CommandFault.Template f)) }
    ensures line { IfErr result (λ e. e ≢ CommandFault.OutOfMemory → HasLine e) }
{
    match parse(alloc, body) {
        Ok(template) => Ok(template),
        Err(fault) => match fault.kind {
            FaultKind::OutOfMemory => Err(CommandFault::OutOfMemory),
            _ => Err(CommandFault::Template(fault)),
        },
    }
}

/// The name and the text of a template or a partial that is put.
fn named_text(alloc: Global, of: &str, body: &str) -> Result<(String, Template), CommandFault>
    ensures template_put { IfOk result (λ p. IsActionOf (Action.PutTemplate p.0 p.1)
        (row_reading (template_row of.now body.now))) }
    ensures partial_put { IfOk result (λ p. IsActionOf (Action.PutPartial p.0 p.1)
        (row_reading (partial_row of.now body.now))) }
    ensures no_template { IfErr result (λ e. e ≢ CommandFault.OutOfMemory
        → row_reading (template_row of.now body.now) ≡ Err e) }
    ensures no_partial { IfErr result (λ e. e ≢ CommandFault.OutOfMemory
        → row_reading (partial_row of.now body.now) ≡ Err e) }
    ensures line { IfErr result (λ e. e ≢ CommandFault.OutOfMemory → HasLine e) }
{
    if !is_name(of) {
        return Err(CommandFault::Name);
    }
    match parsed(alloc, body) {
        Ok(template) => Ok((String::from_str(alloc, of)?, template)),
        Err(fault) => Err(fault),
    }
}

fn data_put(alloc: Global, of: &str, body: &str) -> Result<Action, CommandFault>
    ensures ok { IfOk result (λ a. IsActionOf a (row_reading (data_row of.now body.now))) }
    ensures err { IfErr result (λ e. e ≢ CommandFault.OutOfMemory
        → row_reading (data_row of.now body.now) ≡ Err e) }
    ensures line { IfErr result (λ e. e ≢ CommandFault.OutOfMemory → HasLine e) }
{
    if !is_name(of) {
        return Err(CommandFault::Name);
    }
    match Data::from_json(alloc, body.as_bytes()) {
        Ok(page_data) => Ok(Action::PutData {
            name: String::from_str(alloc, of)?,
            page_data,
        }),
        Err(DataFault::OutOfMemory) => Err(CommandFault::OutOfMemory),
        Err(fault) => Err(CommandFault::Data(fault)),
    }
}

fn route_put(
    alloc: Global,
    at: &str,
    template: &str,
    page_data: &str,
) -> Result<Action, CommandFault>
    ensures ok { IfOk result (λ a. IsActionOf a (row_reading (route_row at.now template.now page_data.now))) }
    ensures err { IfErr result (λ e. e ≢ CommandFault.OutOfMemory
        → row_reading (route_row at.now template.now page_data.now) ≡ Err e) }
    ensures line { IfErr result (λ e. e ≢ CommandFault.OutOfMemory → HasLine e) }
{
    if !(is_name(template) && is_name(page_data)) {
        return Err(CommandFault::Name);
    }
    if !is_path(at) {
        return Err(CommandFault::Path);
    }
    Ok(Action::PutRoute {
        path: String::from_str(alloc, at)?,
        template: String::from_str(alloc, template)?,
        page_data: String::from_str(alloc, page_data)?,
    })
}

fn redirect_put(alloc: Global, at: &str, target: &str) -> Result<Action, CommandFault>
    ensures ok { IfOk result (λ a. IsActionOf a (row_reading (redirect_row at.now target.now))) }
    ensures err { IfErr result (λ e. e ≢ CommandFault.OutOfMemory
        → row_reading (redirect_row at.now target.now) ≡ Err e) }
    ensures line { IfErr result (λ e. e ≢ CommandFault.OutOfMemory → HasLine e) }
{
    if !(is_path(at) && is_target(target)) {
        return Err(CommandFault::Path);
    }
    Ok(Action::PutRedirect {
        path: String::from_str(alloc, at)?,
        target: String::from_str(alloc, target)?,
    })
}

fn good_name(of: &str) -> Result<(), CommandFault>
    ensures { result ≡ (if is_name of.now then Ok tt else Err CommandFault.Name) }
{
    if is_name(of) {
        Ok(())
    } else {
        Err(CommandFault::Name)
    }
}

fn good_path(at: &str) -> Result<(), CommandFault>
    ensures { result ≡ (if is_path at.now then Ok tt else Err CommandFault.Path) }
{
    if is_path(at) {
        Ok(())
    } else {
        Err(CommandFault::Path)
    }
}

/// What is wrong with what a remove names: a name, or the path of a route or a redirect.
fn removable(kind: Kind, of: &str) -> Result<(), CommandFault>
    ensures { result ≡ (if is_removable (kind_view kind) of.now then Ok tt else Err
        (wrong_remove (kind_view kind))) }
{
    match kind {
        Kind::Template => good_name(of),
        Kind::Partial => good_name(of),
        Kind::Data => good_name(of),
        Kind::Route => good_path(of),
        Kind::Redirect => good_path(of),
    }
}

fn removal(alloc: Global, kind: Kind, of: &str) -> Result<Action, CommandFault>
    ensures ok { IfOk result (λ a. IsActionOf a (row_reading (remove_row (kind_view kind) of.now))) }
    ensures err { IfErr result (λ e. e ≢ CommandFault.OutOfMemory
        → row_reading (remove_row (kind_view kind) of.now) ≡ Err e) }
    ensures line { IfErr result (λ e. e ≢ CommandFault.OutOfMemory → HasLine e) }
{
    match removable(kind, of) {
        Ok(()) => Ok(Action::Remove {
            kind,
            name: String::from_str(alloc, of)?,
        }),
        Err(fault) => Err(fault),
    }
}
