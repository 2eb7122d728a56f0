//! Formatting lists of names: interfaces, members of unions, locations.
ghost use Rattle.std.specs.Prelude.{OnOk, map};
ghost use Rattle.graphql_core.specs.{text_of};
ghost use Rattle.graphql_schema.specs.{between, joined_names, interfaces_layout, members_layout, locations_layout};
ghost use Rattle.graphql_schema.specs.{repeatable_layout};

use crate::location::DirectiveLocation;
use graphql_core::common::Names;
use graphql_core::format::Sink;

/// Appends a punctuator between two spaces.
fn write_between<S: Sink>(out: &mut S, separator: &str) -> Result<(), S::Error>
    ensures { OnOk result (S.took out.old (text_of (between separator.now)) out.new) }
{
    out.push_three(" ", separator, " ")
}

fn write_joined_names<S: Sink, N: Names>(
    out: &mut S,
    separator: &str,
    names: &[N::Value],
) -> Result<(), S::Error>
    ensures { OnOk result (S.took out.old (text_of (joined_names separator.now (map N.bytes names.now))) out.new) }
{
    let Some((first, others)) = names.split_first() else {
        return Ok(());
    };
    out.push_str(N::view(first))?;
    'others: for name in others {
        write_between(out, separator)?;
        out.push_str(N::view(name))?;
    }
    Ok(())
}

/// Appends the interfaces that a type implements, if there are any.
pub fn write_interfaces<S: Sink, N: Names>(
    out: &mut S,
    interfaces: &[N::Value],
) -> Result<(), S::Error>
    ensures { OnOk result (S.took out.old (text_of (interfaces_layout (map N.bytes interfaces.now))) out.new) }
{
    if interfaces.is_empty() {
        return Ok(());
    }
    out.push_str(" implements ")?;
    write_joined_names::<S, N>(out, "&", interfaces)
}

/// Appends the member types of a union, if there are any.
pub fn write_members<S: Sink, N: Names>(out: &mut S, types: &[N::Value]) -> Result<(), S::Error>
    ensures { OnOk result (S.took out.old (text_of (members_layout (map N.bytes types.now))) out.new) }
{
    if types.is_empty() {
        return Ok(());
    }
    write_between(out, "=")?;
    write_joined_names::<S, N>(out, "|", types)
}

/// Appends the locations of a directive, if there are any.
pub fn write_locations<S: Sink>(
    out: &mut S,
    locations: &[DirectiveLocation],
) -> Result<(), S::Error>
    ensures { OnOk result (S.took out.old (text_of (locations_layout locations.now)) out.new) }
{
    let Some((first, others)) = locations.split_first() else {
        return Ok(());
    };
    out.push_two(" on ", first.as_str())?;
    'others: for location in others {
        write_between(out, "|")?;
        out.push_str(location.as_str())?;
    }
    Ok(())
}

/// Appends `repeatable` if the directive is repeatable.
pub fn write_repeatable<S: Sink>(out: &mut S, repeatable: bool) -> Result<(), S::Error>
    ensures { OnOk result (S.took out.old (text_of (repeatable_layout repeatable)) out.new) }
{
    if !repeatable {
        return Ok(());
    }
    out.push_str(" repeatable")
}
