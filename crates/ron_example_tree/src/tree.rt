//! A type that holds itself in a list and in a box: its schema is a table written by hand.
ghost use Rattle.std.specs.Prelude.{◌≡◌, ℤ, Vec, IfOk, IfErr, OnOk, MatchResult};
ghost use Rattle.std.specs.declared.alloc.Global.{Global};
ghost use Rattle.ron_base.specs.declared.error.Error.TheVariants.{OutOfMemory};
ghost use Rattle.ron_spec_grammar.specs.Data as plain;
ghost use Rattle.ron_spec_grammar.specs.Schema.{OfShape};
ghost use Rattle.ron_value_number.specs.declared.width.Width.TheVariants as width;
ghost use Rattle.ron_data.specs.Datum.{data_view};
ghost use Rattle.ron_types.specs.Lists.{Each};
ghost use Rattle.ron_types.specs.OfTables.{IsOf};
ghost use Rattle.ron_types.specs.Normal.{unchanged, list_data, option_data};
ghost use Rattle.ron_example_tree.specs.declared.tree.Tree.{Tree};
ghost use Rattle.ron_example_tree.specs.Tree.{tree_table, tree_data, tree_in, IsTree, AreNames};

use crate::tree_fields::three;
use ron::error::Result;
use ron::schema::{Data, Deserialize, FieldList, Schema, Schematic, Serialize, Shape, Width};
use ron::types::{another_kind, another_name, another_width, field_shape};
use ron::value::Number;
use ron_lex_text::text::is_same;
use std::alloc::Global;

/// A number, the trees below it, and the one beside it.
#[derive(Drop)]
pub struct Tree {
    pub value: i32,
    pub children: Vec<Tree>,
    pub next: Option<Box<Tree>>,
}

impl Schematic for Tree {
    ghost schema_is = { tree_table };

    ghost data = { tree_data };

    ghost normal = { unchanged };

    ghost accepts = { IsTree };

    fn schema(alloc: Global) -> Result<Schema> {
        let fields = vec![in alloc;
            field_shape(alloc, "value", 0)?,
            field_shape(alloc, "children", 2)?,
            field_shape(alloc, "next", 3)?,
        ]?;
        let skip_unknown = false;
        let list = FieldList {
            fields,
            skip_unknown,
        };
        let shapes = vec![in alloc;
            Shape::Int(Width::I32),
            Shape::Struct(String::from_str(alloc, "Tree")?, list),
            Shape::Seq(1),
            Shape::Option(1),
        ]?;
        Schema::new(shapes, 1)
    }
}

impl Serialize for Tree {
    fn to_data(&self, alloc: Global) -> Result<Data<'_>> {
        struct_of(alloc, self)
    }
}

/// The tree as a struct.
#[cycle(to_data)]
fn struct_of(alloc: Global, tree: &Tree) -> Result<Data<'_>>
    ensures value { MatchResult result (λ d. data_view d ≡ tree_data tree.now) (λ e. e ≡ OutOfMemory) }
    ensures of_schema { OnOk result (IsOf tree_table (tree_data tree.now)) }
{
    let own = Names::new(alloc)?;
    let value = tree.value.to_data(alloc)?;
    let children = list_of(alloc, tree.children.as_slice())?;
    let next = option_of(alloc, &tree.next)?;
    let fields = vec![in alloc;
        (own.value, value),
        (own.children, children),
        (own.next, next),
    ]?;
    Ok(Data::Struct(own.tree, fields))
}

/// The names of a tree and of its fields, made before its data.
#[derive(Drop)]
struct Names {
    tree: String,
    value: String,
    children: String,
    next: String,
}

impl Names {
    fn new(alloc: Global) -> Result<Names>
        ensures { MatchResult result AreNames (λ e. e ≡ OutOfMemory) }
    {
        Ok(Names {
            tree: String::from_str(alloc, "Tree")?,
            value: String::from_str(alloc, "value")?,
            children: String::from_str(alloc, "children")?,
            next: String::from_str(alloc, "next")?,
        })
    }
}

/// Trees as a list.
#[cycle(to_data)]
fn list_of(alloc: Global, trees: &[Tree]) -> Result<Data<'_>>
    ensures value { MatchResult result (λ d. data_view d ≡ list_data tree_data trees.now) (λ e. e ≡ OutOfMemory) }
    ensures of_schema { OnOk result (Each (λ t. IsOf tree_table (tree_data t)) trees.now) }
{
    let mut items = Vec::with_capacity(alloc, trees.len())?;
    for tree in trees {
        items.push(struct_of(alloc, tree)?)?;
    }
    Ok(Data::Seq(items))
}

/// A tree that may be there.
#[cycle(to_data)]
fn option_of(alloc: Global, next: &Option<Box<Tree>>) -> Result<Data<'_>>
    ensures value { MatchResult result (λ d. data_view d ≡ option_data tree_in next.now) (λ e. e ≡ OutOfMemory) }
    ensures of_schema { OnOk result (OfShape tree_table.shapes 3 (option_data tree_in next.now)) }
{
    match next {
        None => Ok(Data::Option(None)),
        Some(tree) => {
            let content = struct_of(alloc, tree)?;
            Ok(Data::Option(Some(Box::new(alloc, content)?)))
        }
    }
}

impl<'de> Deserialize<'de> for Tree {
    fn from_data(alloc: Global, from: Data<'de>) -> Result<Self> {
        tree_of(alloc, from)
    }
}

/// The tree of a struct.
#[cycle(from_data)]
fn tree_of<'de>(alloc: Global, from: Data<'de>) -> Result<Tree>
    ensures value { IfOk result (λ t. tree_data t ≡ data_view from.entry) }
    ensures accepted { IfErr result (λ e. IsTree from.entry → e ≡ OutOfMemory) }
{
    let (name, fields) = match from {
        Data::Struct(name, fields) => (name, fields),
        other => return Err(another_kind(alloc, "a struct", other)),
    };
    if !is_same(name.as_str(), "Tree") {
        return Err(another_name(alloc, "Tree", name.as_str()));
    }
    let (value, children, next) = three(alloc, fields.into_iter())?;
    let value = number_of(alloc, value)?;
    let children = children_of(alloc, children)?;
    let next = next_of(alloc, next)?;
    Ok(Tree {
        value,
        children,
        next,
    })
}

/// The number, where it has 32 bits.
fn number_of<'de>(alloc: Global, from: Data<'de>) -> Result<i32>
    ensures value { IfOk result (λ n. plain.int_of width.I32 n ≡ data_view from.entry) }
    ensures accepted { IfErr result (λ e. (n : ℤ) → plain.int_of width.I32 n ≡ data_view from.entry → e ≡ OutOfMemory) }
{
    match from {
        Data::Int(number) => match number {
            Number::I32(value) => Ok(value),
            _ => Err(another_width(alloc, Width::I32, number)),
        },
        other => Err(another_kind(alloc, "an integer", other)),
    }
}

/// The trees of the items of a list.
#[cycle(from_data)]
fn children_of<'de>(alloc: Global, from: Data<'de>) -> Result<Vec<Tree>>
    ensures value { IfOk result (λ ts. list_data tree_data ts.items ≡ data_view from.entry) }
    ensures accepted { IfErr result (λ e. (ts : Vec Tree Global) → list_data tree_data ts.items ≡ data_view from.entry → e ≡ OutOfMemory) }
{
    match from {
        Data::Seq(items) => {
            let mut children = Vec::with_capacity(alloc, items.len())?;
            for item in items {
                children.push(tree_of(alloc, item)?)?;
            }
            Ok(children)
        }
        other => Err(another_kind(alloc, "a sequence", other)),
    }
}

/// The tree that may be there.
#[cycle(from_data)]
fn next_of<'de>(alloc: Global, from: Data<'de>) -> Result<Option<Box<Tree>>>
    ensures value { IfOk result (λ next. option_data tree_in next ≡ data_view from.entry) }
    ensures none { IfErr result (λ e. plain.the_none ≡ data_view from.entry → e ≡ OutOfMemory) }
    ensures some { IfErr result (λ e. (t : Tree) → plain.some_of (tree_data t) ≡ data_view from.entry → e ≡ OutOfMemory) }
{
    match from {
        Data::Option(None) => Ok(None),
        Data::Option(Some(held)) => {
            let next = tree_of(alloc, Box::into_inner(held))?;
            Ok(Some(Box::new(alloc, next)?))
        }
        other => Err(another_kind(alloc, "an optional value", other)),
    }
}
