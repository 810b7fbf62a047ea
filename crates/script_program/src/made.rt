// What a script defines: how collections are made, functions and outputs.
ghost use Rattle.std.specs.Prelude.{◌≡◌};
ghost use Rattle.script_program.specs.Kinds.{emitted_as, gives_object};
ghost use Rattle.script_program.specs.Saved.{saved_as};

use combine_table::Comb;
use dofn_eval::Fun;
use flume_grammar::Body;
use flume_types::Columns;
use flume_value::{Pile, Str};
use type_table::TypeId;

/// How a collection is made. Collections and functions are numbered from 0, each in order of their
/// definitions.
#[derive(Drop)]
pub enum Made {
    /// From the rows of a file, which have these columns.
    Input {
        file: Str,
        columns: Columns,
    },
    /// By a function from each member of a collection, as what it emits to the output of this
    /// number, from 0.
    Do {
        source: usize,
        function: usize,
        output: usize,
    },
    /// As the groups of a table, by key.
    Group {
        source: usize,
    },
    /// By combining the list of each group.
    Combine {
        source: usize,
        by: Comb,
    },
    /// From the members of all of these collections.
    Flatten {
        sources: Pile<usize>,
    },
    /// As the distinct members with how often each occurs.
    Count {
        source: usize,
    },
    /// From two tables, by key.
    Join {
        left: usize,
        right: usize,
    },
    /// From so many of the greatest members.
    Top {
        number: u32,
        source: usize,
    },
    /// As one value, an object: all members of a collection, by a combiner.
    CombineAll {
        source: usize,
        by: Comb,
    },
    /// As one value, an object: what a function emits, called once on the values of these objects.
    Operate {
        objects: Pile<usize>,
        function: usize,
    },
    /// By a function, from each member of a collection beside the value of an object.
    DoWith {
        source: usize,
        function: usize,
        object: usize,
    },
    /// From what an earlier run has kept of it: whether it is an object, and which output of a call
    /// it was, if it was one. No text of a script makes a collection so.
    Saved {
        is_object: bool,
        call: Option<Emitted>,
    },
}

/// An output of a call: of which function, and its place among the outputs, from 0.
#[derive(Clone, Copy)]
pub struct Emitted {
    pub function: usize,
    pub output: usize,
}

impl Made {
    /// Whether a collection that is made so is an object.
    pub fn gives_object(&self) -> bool
        ensures { result ≡ gives_object self.now }
    {
        match self {
            Made::CombineAll { .. } | Made::Operate { .. } => true,
            Made::Saved { is_object, .. } => *is_object,
            _ => false,
        }
    }

    /// Which output of a call a collection is that is made so, if it is one.
    pub fn emitted(&self) -> Option<Emitted>
        ensures { result ≡ emitted_as self.now }
    {
        match self {
            Made::Do {
                function,
                output,
                ..
            } => Some(Emitted {
                function: *function,
                output: *output,
            }),
            Made::Saved { call, .. } => *call,
            _ => None,
        }
    }

    /// How it is made where an earlier run has kept it.
    pub(crate) fn saved(&self) -> Made
        ensures { result ≡ saved_as self.now }
    {
        Made::Saved {
            is_object: self.gives_object(),
            call: self.emitted(),
        }
    }
}

/// What a statement makes: how a collection is made, and the type of its members.
#[derive(Drop)]
pub struct Making {
    pub made: Made,
    pub ty: TypeId,
}

/// A collection: how it is made, the type of its members, and the number of the statement that
/// makes it, from 0 in the script.
#[derive(Drop)]
pub struct Node {
    pub made: Made,
    pub ty: TypeId,
    pub statement: usize,
}

/// What a name stands for: the collection of a number, or none though it is taken.
#[derive(Clone, Copy)]
pub enum Standing {
    Collection(usize),
    Hidden,
}

/// What a function takes and gives.
#[derive(Drop)]
pub struct Signature {
    /// The type of its argument.
    pub takes: TypeId,
    /// The types of what it emits, one for each output.
    pub gives: Pile<TypeId>,
    /// How many emissions are expected of a hundred calls.
    pub scale: u32,
}

/// A function: as it is written, with its types, and with slots in place of the names of its body.
#[derive(Drop)]
pub struct Function {
    /// How many names stand for types in its body: the first so many of the script.
    pub type_names: usize,
    /// The name of its argument.
    pub argument: Str,
    /// What it takes and gives.
    pub signature: Signature,
    /// The statements of its body.
    pub body: Pile<Body>,
    /// The same with slots in place of names, as a call runs it.
    pub fun: Fun,
}

/// An output.
#[derive(Drop)]
pub struct Output {
    /// The name of the collection, as it is written.
    pub name: Str,
    /// The number of the collection that is written.
    pub reads: usize,
    /// The columns in which its members are written.
    pub columns: Columns,
}
