// That records have as many parts as names.
ghost use Rattle.std.specs.Prelude.{All, List, ℕ};
ghost use Rattle.flume_grammar.specs.Answer.{Accepts};
ghost use Rattle.flume_grammar.specs.declared.tree.Ast.{Ast};
ghost use Rattle.no_defaults.specs.Records.{IsFullForm};

/// In the tree of an accepted script each record type and each record literal, however deep it
/// stands, has as many parts as names. So where a definition goes through both side by side, none
/// is left over.
pub fn records_law()
    ensures { (bytes : List ℕ) (ast : Ast) → Accepts bytes ast →
        All (λ statement. IsFullForm statement.form) ast.statements }
{}
