// The program that an accepted script is.
ghost use Rattle.std.specs.Prelude.{◌≡◌, ◌<◌, ℕ, IfOk, Some, false, length, slice_get, slice_index_or};
ghost use Rattle.std.specs.Option.{option_map};
ghost use Rattle.script_program.specs.Program as spec;
ghost use Rattle.script_program.specs.Needed.{is_needed};
ghost use Rattle.script_program.specs.Rested.{rests};
ghost use Rattle.script_program.specs.Saved.{with_saved};
ghost use Rattle.script_program.specs.inner.Tables.{AreHeld, numbered_of};
ghost use Rattle.script_program.specs.inner.Flags.{TellNeeded};

use crate::made::{Function, Node, Output};
use crate::needed::{needed_anew, rested};
use crate::saved::save_found;
use body_check::written_types::TypeNames;
use flume_value::{Pile, Str};
use indexmap::IndexMap;
use std::alloc::{AllocError, Global};
use std::marker::Model;
use type_table::Types;

/// The program that an accepted script is. Contracts see it as the script, over types as trees.
#[derive(Drop)]
pub struct Program {
    known: TypeNames,
    functions: IndexMap<Str, Function>,
    nodes: Pile<(Str, Node)>,
    outputs: IndexMap<Str, Output>,
    needed: Vec<bool>,
}

impl Model for Program {
    ghost use Rattle.std.specs.Coded.{codes};
    ghost use Rattle.flume_types.specs.contracts.types.Ty as coded_types;
    ghost use Rattle.flume_grammar.specs.contracts.tree.Body as coded_bodies;
    ghost use Rattle.script_program.specs.contracts.made.Made as coded_made;
    ghost use Rattle.script_program.specs.contracts.made.Output as coded_outputs;
    ghost use Rattle.script_program.specs.Program.{Numbered};
    ghost use Rattle.script_program.specs.inner.Tables.{numbered_of, AreHeld};
    ghost use Rattle.script_program.specs.inner.Flags.{TellNeeded};

    ghost Value = { Numbered };

    ghost coded = { Prim.hlevel (
      codes,
      coded_types.the_row.coded,
      coded_bodies.the_row.coded,
      coded_made.the_row.coded,
      coded_outputs.the_row.coded,
    ) };

    ghost view = { λ program.
        numbered_of program.known program.functions.entries program.nodes
        program.outputs.entries };

    ghost invariant = { λ program.
        AreHeld program.known program.functions.entries program.nodes
        × TellNeeded program.nodes program.outputs.entries program.needed.items };
}

impl Program {
    /// The program of these, of which it is told which collections are needed.
    pub fn new(
        known: TypeNames,
        functions: IndexMap<Str, Function>,
        nodes: Pile<(Str, Node)>,
        outputs: IndexMap<Str, Output>,
        needed: Vec<bool>,
    ) -> Program
        requires held { AreHeld known functions.entries nodes }
        requires needed { TellNeeded nodes outputs.entries needed.items }
        ensures { result ≡ numbered_of known functions.entries nodes outputs.entries }
    {
        Program {
            known,
            functions,
            nodes,
            outputs,
            needed,
        }
    }

    /// The same program, in which the collections of these numbers are those that an earlier run
    /// has kept. What alone they read is not needed any more. It takes no memory.
    pub fn with_saved(self, found: &[u32]) -> Program
        ensures script { result.script ≡ with_saved found.now self.script }
        ensures known { result.known ≡ self.known }
    {
        let Program {
            known,
            functions,
            nodes,
            outputs,
            mut needed,
        } = self;
        let mut nodes = nodes.into_vec();
        save_found(&mut nodes, found);
        needed_anew(nodes.as_slice(), &outputs, &mut needed);
        Program::new(known, functions, Pile::from_vec(nodes), outputs, needed)
    }

    /// The types under numbers.
    pub fn types(&self) -> &Types
        ensures { result.now ≡ self.now.known.types }
    {
        self.known.types()
    }

    /// How many functions there are.
    pub fn function_count(&self) -> usize
        ensures { result ≡ length self.now.script.functions }
    {
        self.functions.len()
    }

    /// The name of the function of a number.
    pub fn function_name(&self, number: usize) -> &Str
        requires { number < length self.now.script.functions }
        ensures { option_map (λ entry. entry.0) (slice_get self.now.script.functions number)
            ≡ Some result.now }
    {
        match self.functions.get_index(number) {
            Some((name, _)) => name,
            None => unreachable!(),
        }
    }

    /// The function of a number.
    pub fn function(&self, number: usize) -> &Function
        requires { number < length self.now.script.functions }
        ensures is { option_map (λ entry. entry.1) (slice_get self.now.script.functions number)
            ≡ Some (spec.function_in self.now.known result.now) }
        ensures does { spec.DoesAsWritten result.now.fun
            (spec.function_in self.now.known result.now) }
        ensures within { spec.HasTypes self.now.known.types result.now.signature }
    {
        match self.functions.get_index(number) {
            Some((_, function)) => function,
            None => unreachable!(),
        }
    }

    /// How many collections there are.
    pub fn node_count(&self) -> usize
        ensures { result ≡ length self.now.script.nodes }
    {
        self.nodes.len()
    }

    /// The name of the collection of a number.
    pub fn node_name(&self, number: usize) -> &Str
        requires { number < length self.now.script.nodes }
        ensures { option_map (λ entry. entry.0) (slice_get self.now.script.nodes number)
            ≡ Some result.now }
    {
        match self.nodes.get(number) {
            Some((name, _)) => name,
            None => unreachable!(),
        }
    }

    /// The collection of a number.
    pub fn node(&self, number: usize) -> &Node
        requires { number < length self.now.script.nodes }
        ensures is { option_map (λ entry. entry.1) (slice_get self.now.script.nodes number)
            ≡ Some (spec.node_in self.now.known.types result.now) }
        ensures within { result.now.ty < length self.now.known.types }
    {
        match self.nodes.get(number) {
            Some((_, node)) => node,
            None => unreachable!(),
        }
    }

    /// Whether the collection of a number is needed: for a well-formed script, whether a path of
    /// reads leads from it to an output.
    pub fn is_needed(&self, number: usize) -> bool
        requires { number < length self.now.script.nodes }
        ensures { result ≡ is_needed self.now.script number }
    {
        self.needed[number]
    }

    /// For each collection whether the one of that number rests on it.
    pub fn rested_on(&self, alloc: Global, asked: usize) -> Result<Vec<bool>, AllocError>
        ensures many { IfOk result (λ flags.
            length flags.items ≡ length self.now.script.nodes) }
        ensures told { IfOk result (λ flags. (number : ℕ) → number < length flags.items →
            slice_index_or flags.items number false ≡ rests self.now.script asked number) }
    {
        rested(alloc, self.nodes.as_slice(), asked)
    }

    /// How many outputs there are.
    pub fn output_count(&self) -> usize
        ensures { result ≡ length self.now.script.outputs }
    {
        self.outputs.len()
    }

    /// The file of the output of a number.
    pub fn output_file(&self, number: usize) -> &Str
        requires { number < length self.now.script.outputs }
        ensures { option_map (λ entry. entry.0) (slice_get self.now.script.outputs number)
            ≡ Some result.now }
    {
        match self.outputs.get_index(number) {
            Some((file, _)) => file,
            None => unreachable!(),
        }
    }

    /// The output of a number.
    pub fn output(&self, number: usize) -> &Output
        requires { number < length self.now.script.outputs }
        ensures { option_map (λ entry. entry.1) (slice_get self.now.script.outputs number)
            ≡ Some result.now }
    {
        match self.outputs.get_index(number) {
            Some((_, output)) => output,
            None => unreachable!(),
        }
    }
}
