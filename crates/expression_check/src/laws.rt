// Slots have the type of their expression and give what it gives; the equations of both.
ghost use Rattle.std.specs.Prelude.{◌≡◌, ℕ};
ghost use Rattle.type_table.specs.of_flume_types.declared.types.Ty.{Ty as Ty_};
ghost use Rattle.flume_grammar.specs.declared.tree.Expr.{Expr as Expr_, out-Expr};
ghost use Rattle.expression_types.specs.of_written_types.Named.{Named};
ghost use Rattle.expression_check.specs.Given.{Environment, layer_given, given_in};
ghost use Rattle.expression_check.specs.Right.{IsRightExpr};
ghost use Rattle.expression_types.specs.Sight.{Sight};
ghost use Rattle.expression_check.specs.Types.{layer_type, type_of};

/// An expression's slots have its type, and give what it gives: whatever the values are that the
/// names in sight stand for. Where it has a fault, it is that of its type.
pub fn slots_law()
    ensures { (line : ℕ) (e : Expr_) (s : Sight) → IsRightExpr line e s }
{}

/// The type and the meaning of an expression: the equation of each form.
pub fn expression_law()
    ensures rules { (line : ℕ) (e : Expr_) (s : Sight) →
        type_of line e s ≡ layer_type line (type_of line) (out-Expr e) s }
    ensures meaning { (line : ℕ) (known : Named Ty_) (e : Expr_) (env : Environment) →
        given_in line known e env ≡ layer_given line known (given_in line known) (out-Expr e) env }
{}
