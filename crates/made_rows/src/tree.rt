// The tree of the script of the sums. It is the script
//
//     type r = {k: int, v: int}
//     input made: r from "made.csv"
//     fn pair(x: r) -> table<int, int> { emit {key: x.k, value: x.v} }
//     let p = do made pair
//     let g = group p
//     let s = combine g by sum
//     output s to "sums.csv"
ghost use Rattle.std.specs.Prelude.{◌≡◌, ◌≤◌, ◌∷◌, [], IfOk, length};
ghost use Rattle.flume_grammar.specs.declared.tree.Form.TheVariants as form;
ghost use Rattle.made_rows.specs.Sums as spec;

use flume_grammar::{Ast, Body, Combiner, Expr, Form, Function, Operation, Statement, Type};
use flume_value::{Held, Pile, Str};
use std::alloc::{AllocError, Global};

/// The tree of the script.
pub(crate) fn sums_tree(alloc: Global) -> Result<Ast, AllocError>
    ensures { IfOk result (λ tree. tree.statements ≡ spec.sums_statements) }
{
    let mut statements = Pile::new(alloc);
    statements.push(type_statement(alloc)?)?;
    statements.push(input_statement(alloc))?;
    statements.push(function_statement(alloc)?)?;
    let names = only(alloc, b"p")?;
    let pairs = Operation::Do(word(alloc, b"made"), word(alloc, b"pair"));
    statements.push(let_statement(4, names, pairs))?;
    let names = only(alloc, b"g")?;
    let groups = Operation::Group(word(alloc, b"p"));
    statements.push(let_statement(5, names, groups))?;
    let names = only(alloc, b"s")?;
    let sums = Operation::Combine(word(alloc, b"g"), Combiner::Sum);
    statements.push(let_statement(6, names, sums))?;
    statements.push(output_statement(alloc))?;
    Ok(Ast { statements })
}

// A name or a file's name. It takes no memory.
fn word(alloc: Global, text: &[u8]) -> Str
    requires { length text.now ≤ 22 }
    ensures { result ≡ text.now }
{
    match Str::from_slice(alloc, text) {
        Ok(word) => word,
        Err(_) => unreachable!(),
    }
}

// `type r = {k: int, v: int}`
fn type_statement(alloc: Global) -> Result<Statement, AllocError>
    ensures { IfOk result (λ statement. statement ≡ spec.type_statement) }
{
    let names = Vec::from_array(alloc, [word(alloc, b"k"), word(alloc, b"v")])?;
    let types = Vec::from_array(alloc, [Type::Int, Type::Int])?;
    let record = Type::Record(Pile::from_vec(names), Pile::from_vec(types));
    Ok(Statement {
        line: 1,
        form: Form::Type(word(alloc, b"r"), record),
    })
}

// `input made: r from "made.csv"`
fn input_statement(alloc: Global) -> Statement
    ensures { result ≡ spec.input_statement }
{
    Statement {
        line: 2,
        form: Form::Input(
            word(alloc, b"made"),
            Type::Named(word(alloc, b"r")),
            word(alloc, b"made.csv"),
        ),
    }
}

// `fn pair(x: r) -> table<int, int> { emit {key: x.k, value: x.v} }`
fn function_statement(alloc: Global) -> Result<Statement, AllocError>
    ensures { IfOk result (λ statement. statement ≡ spec.function_statement) }
{
    let body = function_body(alloc)?;
    let gives = int_table(alloc)?;
    Ok(Statement {
        line: 3,
        form: Form::Function(Function {
            name: word(alloc, b"pair"),
            argument: word(alloc, b"x"),
            takes: Type::Named(word(alloc, b"r")),
            gives,
            more: Pile::new(alloc),
            scale: None,
            body,
        }),
    })
}

// `table<int, int>`
fn int_table(alloc: Global) -> Result<Type, AllocError>
    ensures { IfOk result (λ ty. ty ≡ spec.int_table) }
{
    let key = Held::new(alloc, Type::Int)?;
    let value = Held::new(alloc, Type::Int)?;
    Ok(Type::Table(key, value))
}

// `emit {key: x.k, value: x.v}`
fn function_body(alloc: Global) -> Result<Pile<Body>, AllocError>
    ensures { IfOk result (λ body. body ≡ spec.function_body) }
{
    let names = Vec::from_array(alloc, [word(alloc, b"key"), word(alloc, b"value")])?;
    let values = fields(alloc)?;
    let record = Expr::Record(Pile::from_vec(names), values);
    let mut body = Pile::new(alloc);
    body.push(Body::Emit(3, None, record))?;
    Ok(body)
}

// `x.k` and `x.v`
fn fields(alloc: Global) -> Result<Pile<Expr>, AllocError>
    ensures { IfOk result (λ fields. fields ≡ spec.both_fields) }
{
    let mut fields = Pile::new(alloc);
    fields.push(field(alloc, word(alloc, b"k"))?)?;
    fields.push(field(alloc, word(alloc, b"v"))?)?;
    Ok(fields)
}

// A field of `x`.
fn field(alloc: Global, name: Str) -> Result<Expr, AllocError>
    ensures { IfOk result (λ expr. expr ≡ spec.field_of_row name) }
{
    let of = Held::new(alloc, Expr::Name(word(alloc, b"x")))?;
    Ok(Expr::Field(of, name))
}

// The one name that a `let` of the script has.
fn only(alloc: Global, name: &[u8]) -> Result<Pile<Str>, AllocError>
    requires { length name.now ≤ 22 }
    ensures { IfOk result (λ names. names ≡ name.now ∷ []) }
{
    let names = Vec::from_array(alloc, [word(alloc, name)])?;
    Ok(Pile::from_vec(names))
}

// A `let` of the script.
fn let_statement(line: u32, names: Pile<Str>, by: Operation) -> Statement
    ensures { result ≡ record { line = line; form = form.Let names by } }
{
    Statement {
        line,
        form: Form::Let(names, by),
    }
}

// `output s to "sums.csv"`
fn output_statement(alloc: Global) -> Statement
    ensures { result ≡ spec.output_statement }
{
    Statement {
        line: 7,
        form: Form::Output(word(alloc, b"s"), word(alloc, b"sums.csv")),
    }
}
