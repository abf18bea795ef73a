//! Members of an object, each with its name.
ghost use Rattle.std.specs.Prelude.{OnOk, encode_utf8_all};
ghost use Rattle.json.specs.Json.{boolean, null, string};
ghost use Rattle.mg_events.specs.Objects.{count, counts};
ghost use Rattle.mg_events.specs.Added.{AddsMember, AddsValue};

use json::Writer;
use std::alloc::{AllocError, Global};

/// Adds a member that is `null`.
pub(crate) fn add_null(writer: &mut Writer, name: &str) -> Result<(), AllocError>
    ensures { OnOk result (AddsMember writer.old writer.new name.now null) }
{
    writer.key(name)?;
    writer.null()?;
    Ok(())
}

/// Adds a member that is true or false.
pub(crate) fn add_flag(writer: &mut Writer, name: &str, value: bool) -> Result<(), AllocError>
    ensures { OnOk result (AddsMember writer.old writer.new name.now (boolean value)) }
{
    writer.key(name)?;
    writer.boolean(value)?;
    Ok(())
}

/// Adds a member that is a number.
pub(crate) fn add_count(writer: &mut Writer, name: &str, value: u64) -> Result<(), AllocError>
    ensures { OnOk result (AddsMember writer.old writer.new name.now (count value)) }
{
    writer.key(name)?;
    writer.u64(value)?;
    Ok(())
}

/// Adds a member that is a text.
pub(crate) fn add_text(writer: &mut Writer, name: &str, value: &str) -> Result<(), AllocError>
    ensures { OnOk result (AddsMember writer.old writer.new name.now (string value.now)) }
{
    writer.key(name)?;
    writer.string(value)?;
    Ok(())
}

/// Adds a member that is a text of these characters.
pub(crate) fn add_characters(
    alloc: Global,
    writer: &mut Writer,
    name: &str,
    value: &[char],
) -> Result<(), AllocError>
    ensures { OnOk result
        (AddsMember writer.old writer.new name.now (string (encode_utf8_all value.now))) }
{
    let text: String = value.iter().copied().collect(alloc)?;
    writer.key(name)?;
    writer.string(&text)?;
    Ok(())
}

/// Adds a member that is numbers between brackets.
pub(crate) fn add_named_counts(
    writer: &mut Writer,
    name: &str,
    values: &[u64],
) -> Result<(), AllocError>
    ensures { OnOk result (AddsMember writer.old writer.new name.now (counts values.now)) }
{
    writer.key(name)?;
    add_counts(writer, values)?;
    Ok(())
}

/// Adds numbers between brackets.
pub(crate) fn add_counts(writer: &mut Writer, values: &[u64]) -> Result<(), AllocError>
    ensures { OnOk result (AddsValue writer.old writer.new (counts values.now)) }
{
    writer.begin_array()?;
    for value in values {
        writer.u64(*value)?;
    }
    writer.end_array()?;
    Ok(())
}
