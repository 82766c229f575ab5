//! Reports and refusals as JSON: objects.

ghost use Rattle.std.specs.Prelude.{◌≡◌, ◌++◌, [], IfOk, OnOk};
ghost use Rattle.json.specs.Print.{print};
ghost use Rattle.json.specs.Tree.{members_tokens};
ghost use Rattle.td_lines.specs.Asked.{error_json, error_members, opening, question_of, report_json};
ghost use Rattle.td_lines.specs.Said.{entries_of};
ghost use Rattle.td_lines.specs.Texts.{newline};
ghost use Rattle.td_lines.specs.Values.{Adds};

use crate::asked::{Asked, head, object_of};
use crate::line::Line;
use crate::members::{count_of, object};
use crate::terms::Terms;
use json::Writer;
use std::alloc::{AllocError, Global};

/// Whether the program is proved: `build/unproved.py` compiles one that says that it isn't.
const IS_PROVED: bool = true;

/// The beginning of an object: whether the program is proved, and what was asked.
fn opened(alloc: Global, asked: &Asked) -> Result<Writer, AllocError>
    ensures { IfOk result (λ writer. (writer.before ≡ []) × (writer.tokens ≡ opening (question_of asked.now))) }
{
    let mut writer = Writer::new(Vec::new(alloc));
    writer.begin_object()?;
    writer.key("proved")?;
    writer.boolean(IS_PROVED)?;
    head(alloc, &mut writer, asked)?;
    Ok(writer)
}

/// The text of an object, and a newline.
fn ended(writer: Writer) -> Result<Vec<u8>, AllocError>
    ensures { IfOk result (λ text. text.items ≡ writer.before ++ (print writer.tokens ++ newline)) }
{
    let mut text = writer.into_inner();
    text.push(b'\n')?;
    Ok(text)
}

/// The JSON of a report, a text of one line: whether the program is proved, what was asked, and then
/// a member for each of the report's lines.
pub fn print_json(alloc: Global, asked: &Asked, report: &[Line]) -> Result<Vec<u8>, AllocError>
    ensures { IfOk result (λ text. text.items ≡ report_json (question_of asked.now) report.now) }
{
    let mut writer = opened(alloc, asked)?;
    object(alloc, &mut writer, report)?;
    ended(writer)
}

/// Why there is no report, the exit status, and the end of the object.
fn error_ended(
    alloc: Global,
    writer: &mut Writer,
    error: &Terms,
    status: u64,
) -> Result<(), AllocError>
    ensures { OnOk result (Adds writer.old writer.new (members_tokens (error_members (entries_of error.now) status))) }
{
    object_of(alloc, writer, "error", error)?;
    count_of(writer, "status", status)?;
    writer.end_object()
}

/// The JSON of a refusal, a text of one line: whether the program is proved, what was asked, why
/// there is no report, and the exit status.
pub fn print_error(
    alloc: Global,
    asked: &Asked,
    error: &Terms,
    status: u64,
) -> Result<Vec<u8>, AllocError>
    ensures { IfOk result (λ text. text.items ≡ error_json (question_of asked.now) (entries_of error.now) status) }
{
    let mut writer = opened(alloc, asked)?;
    error_ended(alloc, &mut writer, error, status)?;
    ended(writer)
}
