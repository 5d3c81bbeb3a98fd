//! The line that is told of a status that is not Done.
ghost use Rattle.std.specs.Prelude.{◌≡◌, ◌≤◌, ◌∷◌, ◌++◌, [], OnOk, OnErr, codes, option_to_list};
ghost use Rattle.std.specs.Io.KnownBytes.{Appends};
ghost use Rattle.seg_common.specs.FaultCounts.{HasCause};
ghost use Rattle.seg_common.specs.Streams.{StaysTold, AppendsPart};
ghost use Rattle.seg_tool.specs.Statuses.{cause_words, fault_text, schema_cause_words, argument_cause_words, numbers_text, cause_text, status_line};

use crate::damage::write_damage;
use crate::status::Status;
use seg_common::{Sink, SinkFailed, write_whole};
use seg_values::{ArgumentCause, SchemaCause, TantivyError};

/// Says what came of a run in one line, and of `Done` nothing. It takes no memory. After an error some first bytes of
/// the line were written.
pub fn report<F: Sink>(faults: &mut F, status: &Status) -> Result<(), SinkFailed>
    ensures ok { OnOk result (Appends (F.written faults.old) (F.written faults.new)
        (status_line status.now)) }
    ensures err { OnErr result (AppendsPart (F.written faults.old) (F.written faults.new)
        (status_line status.now)) }
    ensures told { StaysTold (F.written faults.old) (F.written faults.new) }
    ensures cause { HasCause (F.faults faults.old) (F.faults faults.new) result }
{
    match status {
        Status::Done => Ok(()),
        Status::Words => write_whole(faults, b"words: not a known command\n"),
        Status::Script => write_whole(faults, b"script: not a valid script\n"),
        Status::Refused(error) => write_refusal(faults, error),
        Status::Exists(_) => write_whole(faults, b"exists: a directory is not empty\n"),
        Status::Directory(error) => write_fault(faults, error),
        Status::Damaged(error) => write_damage(faults, error),
        Status::Stream => write_whole(faults, b"stream: read or write failed\n"),
        Status::Memory => write_whole(faults, b"memory: not enough\n"),
    }
}

/// Which call of a directory failed.
fn write_fault<F: Sink>(faults: &mut F, error: &TantivyError) -> Result<(), SinkFailed>
    ensures ok { OnOk result (Appends (F.written faults.old) (F.written faults.new)
        (fault_text error.now ++ 10 ∷ [])) }
    ensures err { OnErr result (AppendsPart (F.written faults.old) (F.written faults.new)
        (fault_text error.now ++ 10 ∷ [])) }
    ensures told { StaysTold (F.written faults.old) (F.written faults.new) }
    ensures cause { HasCause (F.faults faults.old) (F.faults faults.new) result }
{
    match error {
        TantivyError::OpenReadError => write_whole(faults, b"directory: list or read failed\n"),
        TantivyError::OpenWriteError => write_whole(faults, b"directory: write failed\n"),
        _ => write_whole(faults, b"directory: meta or sync failed\n"),
    }
}

fn write_refusal<F: Sink>(faults: &mut F, error: &TantivyError) -> Result<(), SinkFailed>
    ensures ok { OnOk result (Appends (F.written faults.old) (F.written faults.new)
        (codes "refused: " ++ (cause_text (cause_words error.now) ++ 10 ∷ []))) }
    ensures err { OnErr result (AppendsPart (F.written faults.old) (F.written faults.new)
        (codes "refused: " ++ (cause_text (cause_words error.now) ++ 10 ∷ []))) }
    ensures told { StaysTold (F.written faults.old) (F.written faults.new) }
    ensures cause { HasCause (F.faults faults.old) (F.faults faults.new) result }
{
    write_whole(faults, b"refused: ")?;
    write_cause(faults, error)?;
    write_whole(faults, b"\n")
}

fn write_cause<F: Sink>(faults: &mut F, error: &TantivyError) -> Result<(), SinkFailed>
    ensures ok { OnOk result (Appends (F.written faults.old) (F.written faults.new)
        (cause_text (cause_words error.now))) }
    ensures err { OnErr result (AppendsPart (F.written faults.old) (F.written faults.new)
        (cause_text (cause_words error.now))) }
    ensures told { StaysTold (F.written faults.old) (F.written faults.new) }
    ensures cause { HasCause (F.faults faults.old) (F.faults faults.new) result }
{
    write_whole(faults, name_of(error).as_bytes())?;
    let (first, second) = numbers_of(error);
    write_number(faults, first)?;
    write_number(faults, second)
}

/// A number after a space, where there is one.
fn write_number<F: Sink>(faults: &mut F, number: Option<u64>) -> Result<(), SinkFailed>
    ensures ok { OnOk result (Appends (F.written faults.old) (F.written faults.new)
        (numbers_text (option_to_list number))) }
    ensures err { OnErr result (AppendsPart (F.written faults.old) (F.written faults.new)
        (numbers_text (option_to_list number))) }
    ensures told { StaysTold (F.written faults.old) (F.written faults.new) }
    ensures cause { HasCause (F.faults faults.old) (F.faults faults.new) result }
{
    match number {
        None => Ok(()),
        Some(number) => {
            write_whole(faults, b" ")?;
            let mut buffer = itoa::Buffer::new();
            write_whole(faults, buffer.format(number).as_bytes())
        }
    }
}

/// The numbers of a cause, at most two.
fn numbers_of(error: &TantivyError) -> (Option<u64>, Option<u64>)
    ensures { option_to_list result.0 ++ option_to_list result.1 ≡ (cause_words error.now).numbers }
{
    match error {
        TantivyError::SchemaError(cause) => schema_numbers(cause),
        TantivyError::InvalidArgument(cause) => (argument_number(cause), None),
        _ => (None, None),
    }
}

fn schema_numbers(cause: &SchemaCause) -> (Option<u64>, Option<u64>)
    ensures { option_to_list result.0 ++ option_to_list result.1
        ≡ (schema_cause_words cause.now).numbers }
{
    match cause {
        SchemaCause::UnknownField { at } => (Some(*at as u64), None),
        SchemaCause::WrongValue { at, field } => {
            (Some(*at as u64), Some(u64::from(field.field_id())))
        }
        SchemaCause::DeleteField { at } => (Some(*at as u64), None),
        SchemaCause::Tokenizer { field } => (Some(u64::from(field.field_id())), None),
        SchemaCause::DuplicateName
        | SchemaCause::NotFacet
        | SchemaCause::NoNorms
        | SchemaCause::NoColumn => (None, None),
    }
}

fn argument_number(cause: &ArgumentCause) -> Option<u64>
    ensures { option_to_list result ≡ (argument_cause_words cause.now).numbers }
{
    match cause {
        ArgumentCause::JsonLeaf { at }
        | ArgumentCause::JsonKey { at }
        | ArgumentCause::Positions { at }
        | ArgumentCause::Limit { at } => Some(*at as u64),
        _ => None,
    }
}

fn name_of(error: &TantivyError) -> &'static str
    ensures { result.now ≡ (cause_words error.now).name }
{
    match error {
        TantivyError::SchemaError(cause) => schema_name(cause),
        TantivyError::InvalidArgument(cause) => argument_name(cause),
        _ => "",
    }
}

fn schema_name(cause: &SchemaCause) -> &'static str
    ensures { result.now ≡ (schema_cause_words cause.now).name }
{
    match cause {
        SchemaCause::UnknownField { .. } => "UnknownField",
        SchemaCause::WrongValue { .. } => "WrongValue",
        SchemaCause::DeleteField { .. } => "DeleteField",
        SchemaCause::Tokenizer { .. } => "Tokenizer",
        SchemaCause::DuplicateName => "DuplicateName",
        SchemaCause::NotFacet => "NotFacet",
        SchemaCause::NoNorms => "NoNorms",
        SchemaCause::NoColumn => "NoColumn",
    }
}

fn argument_name(cause: &ArgumentCause) -> &'static str
    ensures { result.now ≡ (argument_cause_words cause.now).name }
{
    match cause {
        ArgumentCause::Cuts => "Cuts",
        ArgumentCause::Batches => "Batches",
        ArgumentCause::Filters => "Filters",
        ArgumentCause::SegmentIds => "SegmentIds",
        ArgumentCause::FieldName => "FieldName",
        ArgumentCause::Settings => "Settings",
        ArgumentCause::FastTokenizer => "FastTokenizer",
        ArgumentCause::JsonLeaf { .. } => "JsonLeaf",
        ArgumentCause::JsonKey { .. } => "JsonKey",
        ArgumentCause::Positions { .. } => "Positions",
        ArgumentCause::Limit { .. } => "Limit",
        ArgumentCause::Documents => "Documents",
        ArgumentCause::Numbers => "Numbers",
        ArgumentCause::Budget => "Budget",
        ArgumentCause::NoSegments => "NoSegments",
        ArgumentCause::NoIndices => "NoIndices",
        ArgumentCause::DifferentSchemas => "DifferentSchemas",
        ArgumentCause::DifferentSettings => "DifferentSettings",
        ArgumentCause::NotFast => "NotFast",
        ArgumentCause::SizeOverflow => "SizeOverflow",
    }
}
