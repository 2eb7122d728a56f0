//! Copies of trees.
ghost use Rattle.std.specs.Prelude.{◌≡◌, [], IfOk, string_bytes};
ghost use Rattle.graphql_core.specs.values.ValueViews.{value_view, items_view, members_view, type_view};
ghost use Rattle.graphql_core.specs.values.ValueViews.{directive_view};

use crate::common::Names;
use crate::common::tree::{Directive, Type, Value};
use std::alloc::{AllocError, Global};
use std::collections::BTreeMap;
use std::default::Emptied;

// How to copy a value with names of `N` to one with names of `M`.
trait CopyNames<N: Names, M: Names> {
    fn name(&self, name: &N::Value) -> Result<M::Value, AllocError>
        ensures { IfOk result (λ v. M.bytes v ≡ N.bytes name.now) };

    // An empty map, for the fields of a copy of the object `like`.
    fn no_fields(
        &self,
        like: &BTreeMap<N::Value, Value<N>>,
    ) -> Result<BTreeMap<M::Value, Value<M>>, AllocError>
        ensures { IfOk result (λ m. m.entries ≡ []) };
}

// A copy's names are clones.
#[derive(Drop)]
struct Cloning;

impl<N: Names> CopyNames<N, N> for Cloning {
    fn name(&self, name: &N::Value) -> Result<N::Value, AllocError> {
        name.clone()
    }

    fn no_fields(
        &self,
        like: &BTreeMap<N::Value, Value<N>>,
    ) -> Result<BTreeMap<N::Value, Value<N>>, AllocError> {
        BTreeMap::emptied(like)
    }
}

// A copy's names are owned strings.
#[derive(Drop)]
struct Owning {
    alloc: Global,
}

impl<N: Names> CopyNames<N, String> for Owning {
    fn name(&self, name: &N::Value) -> Result<String, AllocError> {
        String::from_str(self.alloc, N::view(name))
    }

    fn no_fields(
        &self,
        _like: &BTreeMap<N::Value, Value<N>>,
    ) -> Result<BTreeMap<String, Value<String>>, AllocError> {
        Ok(BTreeMap::new(self.alloc))
    }
}

impl<N: Names> Clone for Value<N> {
    ghost is_clone = { λ v w. value_view N.bytes w ≡ value_view N.bytes v };

    fn clone(&self) -> Result<Value<N>, AllocError> {
        copy(&Cloning, self)
    }
}

impl<N: Names> Value<N> {
    /// Returns the same value with owned names, so that it can outlive its source.
    ///
    /// An error means that an allocation failed.
    pub fn into_static(&self, alloc: Global) -> Result<Value<String>, AllocError>
        ensures { IfOk result (λ v. value_view string_bytes v ≡ value_view N.bytes self.now) }
    {
        copy(&Owning { alloc }, self)
    }
}

#[cycle(copy)]
fn copy<N: Names, M: Names, C: CopyNames<N, M>>(
    copying: &C,
    value: &Value<N>,
) -> Result<Value<M>, AllocError>
    ensures { IfOk result (λ v. value_view M.bytes v ≡ value_view N.bytes value.now) }
{
    match value {
        Value::Variable(name) => Ok(Value::Variable(copying.name(name)?)),
        Value::Int(number) => Ok(Value::Int(*number)),
        Value::Float(literal) => Ok(Value::Float(literal.clone()?)),
        Value::String(text) => Ok(Value::String(text.clone()?)),
        Value::Boolean(is_true) => Ok(Value::Boolean(*is_true)),
        Value::Null => Ok(Value::Null),
        Value::Enum(name) => Ok(Value::Enum(copying.name(name)?)),
        Value::List(items) => Ok(Value::List(copy_items(copying, items)?)),
        Value::Object(members) => Ok(Value::Object(copy_members(copying, members)?)),
    }
}

#[cycle(copy)]
fn copy_items<N: Names, M: Names, C: CopyNames<N, M>>(
    copying: &C,
    items: &Vec<Value<N>>,
) -> Result<Vec<Value<M>>, AllocError>
    ensures { IfOk result (λ v. items_view M.bytes v.items ≡ items_view N.bytes items.now.items) }
{
    let mut copies = Vec::with_capacity(*items.allocator(), items.len())?;
    'items: for item in items {
        copies.push(copy(copying, item)?)?;
    }
    Ok(copies)
}

#[cycle(copy)]
fn copy_members<N: Names, M: Names, C: CopyNames<N, M>>(
    copying: &C,
    members: &BTreeMap<N::Value, Value<N>>,
) -> Result<BTreeMap<M::Value, Value<M>>, AllocError>
    ensures { IfOk result (λ m. members_view M.bytes m.entries ≡ members_view N.bytes members.now.entries) }
{
    let mut copies = copying.no_fields(members)?;
    'members: for (key, member) in members.iter() {
        let name = copying.name(key)?;
        drop(copies.insert(name, copy(copying, member)?)?);
    }
    Ok(copies)
}

impl<N: Names> Clone for Type<N> {
    ghost is_clone = { λ t u. type_view N.bytes u ≡ type_view N.bytes t };

    fn clone(&self) -> Result<Type<N>, AllocError> {
        copy_type(self)
    }
}

fn copy_type<N: Names>(declared: &Type<N>) -> Result<Type<N>, AllocError>
    ensures { IfOk result (λ t. type_view N.bytes t ≡ type_view N.bytes declared.now) }
{
    match declared {
        Type::NamedType(name) => Ok(Type::NamedType(name.clone()?)),
        Type::ListType(inner) => {
            let copied = copy_type(&**inner)?;
            Ok(Type::ListType(Box::new(*Box::allocator(inner), copied)?))
        }
        Type::NonNullType(inner) => {
            let copied = copy_type(&**inner)?;
            Ok(Type::NonNullType(Box::new(*Box::allocator(inner), copied)?))
        }
    }
}

impl<N: Names> Clone for Directive<N> {
    ghost is_clone = { λ d e. directive_view N.bytes e ≡ directive_view N.bytes d };

    fn clone(&self) -> Result<Directive<N>, AllocError> {
        let name = self.name.clone()?;
        let arguments = self.arguments.clone()?;
        Ok(Directive {
            position: self.position,
            name,
            arguments,
        })
    }
}
