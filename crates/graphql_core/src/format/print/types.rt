//! Types.
ghost use Rattle.std.specs.Prelude.{OnOk};
ghost use Rattle.graphql_core.specs.{text_of, type_view, type_layout};

use crate::common::Names;
use crate::common::tree::Type;
use crate::format::Sink;

/// Appends a type.
pub fn write_type<S: Sink, N: Names>(out: &mut S, declared: &Type<N>) -> Result<(), S::Error>
    ensures { OnOk result (S.took out.old (text_of (type_layout (type_view N.bytes declared.now))) out.new) }
{
    match declared {
        Type::NamedType(name) => out.push_str(N::view(name)),
        Type::ListType(inner) => {
            out.push_str("[")?;
            write_type(out, &**inner)?;
            out.push_str("]")
        }
        Type::NonNullType(inner) => {
            write_type(out, &**inner)?;
            out.push_str("!")
        }
    }
}
