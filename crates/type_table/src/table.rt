// A table of types, which has each of them once.
ghost use Rattle.std.specs.Prelude.{◌≡◌, ◌<◌, ◌↔◌, [], ◌∷◌, ◌++◌, ℕ, length, MatchOption, IsTrue, IfOk, OnOk, OnErr};
ghost use Rattle.flume_types.specs.declared.types.Ty.{out-Ty};
ghost use Rattle.flume_types.specs.Depth.{depth_of};
ghost use Rattle.flume_types.specs.Equality.{type_eq};
ghost use Rattle.type_table.specs.Table as spec;

use crate::depth::{depth_at, shape_depth};
use crate::shape::{Shape, TypeId};
use flume_types::same_law;
use indexmap::IndexMap;
use std::alloc::{AllocError, Global};
use std::marker::Model;

/// A table of types, which contracts see as the list of the types.
#[derive(Drop)]
pub struct Types {
    shapes: IndexMap<Shape, u32>,
}

impl Model for Types {
    ghost use Rattle.std.specs.Prelude.{List};
    ghost use Rattle.std.specs.Coded.{coded_list};
    ghost use Rattle.flume_types.specs.declared.types.Ty.{Ty};
    ghost use Rattle.flume_types.specs.contracts.types.Ty as coded_types;

    ghost Value = { List Ty };

    ghost coded = { coded_list (Prim.hlevel (coded_types.the_row.coded)) };

    ghost use Rattle.type_table.specs.Table.{kept_types, IsTable};

    ghost view = { λ types. kept_types types.shapes.entries };

    ghost invariant = { λ types. IsTable types.shapes.entries };
}

impl Types {
    /// No types.
    pub fn new(alloc: Global) -> Types
        ensures { result ≡ [] }
    {
        Types {
            shapes: IndexMap::new(alloc),
        }
    }

    /// Whether two numbers stand for one type.
    pub fn same(&self, a: TypeId, b: TypeId) -> bool
        requires a_in { a < length self.now }
        requires b_in { b < length self.now }
        ensures same { IsTrue result ↔ (spec.type_at self.now a ≡ spec.type_at self.now b) }
        ensures value { result ≡ type_eq (spec.type_at self.now a) (spec.type_at self.now b) }
    {
        same_law();
        let _shapes = &self.shapes;
        a == b
    }

    /// The number of the type that a shape stands for, which is added where it has none. Every
    /// number keeps its type.
    pub fn intern(&mut self, shape: Shape) -> Result<TypeId, AllocError>
        requires { spec.IsWithin (length self.old) shape }
        ensures within { IfOk result (λ id. id < length self.new) }
        ensures ok { IfOk result (λ id. spec.type_at self.new id ≡ spec.tree_of self.old shape) }
        ensures extends { spec.Extends self.old self.new }
    {
        match find(&self.shapes, &shape) {
            Some(id) => Ok(id),
            None => {
                let depth = shape_depth(&self.shapes, &shape);
                add(&mut self.shapes, shape, depth)
            }
        }
    }

    /// How deep the parts of the type lie, as `flume_types::depth` counts.
    pub fn depth(&self, id: TypeId) -> u32
        requires { id < length self.now }
        ensures { result ≡ spec.depth_kept (depth_of (spec.type_at self.now id)) }
    {
        depth_at(&self.shapes, id)
    }

    /// One level of the type. Its parts have smaller numbers.
    pub fn shape(&self, id: TypeId) -> &Shape
        requires { id < length self.now }
        ensures level { out-Ty (spec.type_at self.now id) ≡ spec.shape_layer self.now result.now }
        ensures within { spec.IsWithin (length self.now) result.now }
        ensures smaller { spec.IsWithin id result.now }
    {
        shape_at(&self.shapes, id)
    }
}

fn shape_at(shapes: &IndexMap<Shape, u32>, id: TypeId) -> &Shape
    requires { id < length shapes.now.entries }
    ensures { result.now ≡ (spec.entry_at shapes.now.entries id).0 }
{
    match shapes.get_index(id.number()) {
        Some((shape, _)) => shape,
        None => unreachable!(),
    }
}

/// The number of the shape, where it has one.
fn find(shapes: &IndexMap<Shape, u32>, shape: &Shape) -> Option<TypeId>
    ensures { MatchOption result (spec.LacksShape shapes.now.entries shape.now)
        (λ id. (id < length shapes.now.entries)
        × ((spec.entry_at shapes.now.entries id).0 ≡ shape.now)) }
{
    let at = shapes.get_index_of(shape)?;
    Some(TypeId::new(at))
}

/// Puts a shape that has no number yet at the end.
fn add(shapes: &mut IndexMap<Shape, u32>, shape: Shape, depth: u32) -> Result<TypeId, AllocError>
    requires { spec.LacksShape shapes.old.entries shape }
    ensures id { IfOk result (λ id. id ≡ length shapes.old.entries) }
    ensures ok { OnOk result (shapes.new.entries ≡ shapes.old.entries ++ (shape, depth) ∷ []) }
    ensures err { OnErr result (shapes.new.entries ≡ shapes.old.entries) }
{
    let at = shapes.len();
    shapes.insert(shape, depth)?;
    Ok(TypeId::new(at))
}
