//! The visitors that docs/CALLING.md shows.
use graphql_parser::common::Names;
use graphql_parser::query::{Document, Text, parse_query};
use graphql_walk::{Flow, Node, Visitor, count_fields, visit_query};
use std::alloc::{AllocError, Global};
use std::test::Fail;

/// The fields of a walk, each with how many arguments it has.
#[derive(Drop)]
struct FieldList {
    alloc: Global,
    fields: Vec<(String, usize)>,
}

impl<N: Names> Visitor<N> for FieldList {
    type Error = AllocError;

    fn enter(&mut self, node: &Node<'_, N>) -> Result<Flow, AllocError> {
        if let Node::Field(field) = node {
            let name = String::from_str(self.alloc, N::view(&field.name))?;
            self.fields.push((name, field.arguments.len()))?;
        }
        Ok(Flow::Continue)
    }

    fn leave(&mut self, _node: &Node<'_, N>) -> Result<Flow, AllocError> {
        Ok(Flow::Continue)
    }
}

/// The fields of a document in order, each with how many arguments it has.
fn fields_with_counts<'a, T: Text<'a>>(
    alloc: Global,
    document: &Document<'a, T>,
) -> Result<Vec<(String, usize)>, AllocError> {
    let mut list = FieldList {
        alloc,
        fields: Vec::new(alloc),
    };
    visit_query(document, &mut list)?;
    Ok(list.fields)
}

/// The names of the fragments of a walk, and those that its spreads name.
#[derive(Drop)]
struct Fragments {
    alloc: Global,
    defined: Vec<String>,
    spread: Vec<String>,
}

impl<N: Names> Visitor<N> for Fragments {
    type Error = AllocError;

    fn enter(&mut self, node: &Node<'_, N>) -> Result<Flow, AllocError> {
        match node {
            Node::Fragment(fragment) => {
                let name = String::from_str(self.alloc, N::view(&fragment.name))?;
                self.defined.push(name)?;
            }
            Node::FragmentSpread(spread) => {
                let name = String::from_str(self.alloc, N::view(&spread.fragment_name))?;
                self.spread.push(name)?;
            }
            _ => {}
        }
        Ok(Flow::Continue)
    }

    fn leave(&mut self, _node: &Node<'_, N>) -> Result<Flow, AllocError> {
        Ok(Flow::Continue)
    }
}

/// The names of the fragments that no spread names.
fn unused_fragments<'a, T: Text<'a>>(
    alloc: Global,
    document: &Document<'a, T>,
) -> Result<Vec<String>, AllocError> {
    let mut fragments = Fragments {
        alloc,
        defined: Vec::new(alloc),
        spread: Vec::new(alloc),
    };
    visit_query(document, &mut fragments)?;
    let mut unused = Vec::new(alloc);
    'defined: for name in fragments.defined.iter() {
        if !fragments.spread.contains(name) {
            unused.push(name.clone()?)?;
        }
    }
    Ok(unused)
}

#[test]
fn fields_are_listed(rt: HostRuntime) -> Result<(), Fail> {
    let alloc = rt.alloc();
    let source = "{ a(b: 1, c: {d: 2}) { e } ...F } fragment F on G { h ... on I { j } }";
    let document: Document<'_, &str> = parse_query(alloc, source)?;
    let fields = fields_with_counts(alloc, &document)?;
    let shown = format!(in alloc; "{fields:?}")?;
    assert_eq!(rt;
        shown.as_str(),
        "[(\"a\", 2), (\"e\", 0), (\"h\", 0), (\"j\", 0)]"
    );
    assert_eq!(rt; count_fields(&document), 4);
    Ok(())
}

#[test]
fn unused_fragments_are_found(rt: HostRuntime) -> Result<(), Fail> {
    let alloc = rt.alloc();
    let source = "{ ...A } fragment A on T { b } fragment C on T { d }";
    let document: Document<'_, &str> = parse_query(alloc, source)?;
    let unused = unused_fragments(alloc, &document)?;
    let shown = format!(in alloc; "{unused:?}")?;
    assert_eq!(rt; shown.as_str(), "[\"C\"]");
    Ok(())
}
