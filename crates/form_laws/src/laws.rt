// The laws of operations that are formed: they carry out the graph, they fit, each is the next one
// in its turn, and they come to just one plan.
ghost use Rattle.std.specs.Prelude.{◌≡◌, ◌≤◌, ℕ, List, length, None, Some, false};
ghost use Rattle.exec_graph.specs.declared.graph.Blocked.{Blocked};
ghost use Rattle.exec_graph.specs.declared.graph.Entry.{Entry};
ghost use Rattle.exec_graph.specs.declared.graph.Place.{Place};
ghost use Rattle.exec_graph.specs.Readers.{among};
ghost use Rattle.plan_rules.specs.of_exec_plan.declared.plan.Plan.{Plan};
ghost use Rattle.exec_graph.specs.Meaning.{IsSound};
ghost use Rattle.plan_laws.specs.declared.operations.Operation.{Operation};
ghost use Rattle.exec_graph.specs.Wellformed.{HaveObjects, IsBlockedOk, IsGraphOk};
ghost use Rattle.plan_laws.specs.Operations.{DoAll, IsIn};
ghost use Rattle.plan_rules.specs.Fitting.{AreFit};
ghost use Rattle.form_laws.specs.Formed.{AreFormed, IsFormed};
ghost use Rattle.form_laws.specs.Order.{InTurn, IsTurn, Picked, is_ready, ordered, picked_least};
ghost use Rattle.form_laws.specs.declared.ranked.Ranked.{Ranked};

/// The operations that are formed of a sound graph carry it out: each stands for nodes of the graph
/// and reads what is made before it, what is written out is made, and each Pdo and each Gbk is
/// carried out once.
pub fn form_law()
    ensures { (b : Blocked) (os : List Operation) → IsSound b.graph →
        HaveObjects b.graph.nodes → AreFormed b os → DoAll b.graph os }
{}

/// Beside that they keep to what a well-formed plan needs: the channels of each differ, and a group
/// takes of each of them; what passes through differs; lifted Gbks have reducers; and no Flatten is
/// carried out twice.
pub fn fit_law()
    ensures { (b : Blocked) (os : List Operation) → IsBlockedOk b → AreFormed b os →
        AreFit b.graph.nodes os }
{}

/// What is picked is next: it is one of those that are ready, and none of these is before it by
/// rank and number. None is picked only where none is ready. So in the order each operation is the
/// next one in its turn, and in the end none is ready.
pub fn order_law()
    ensures next { (es : List Entry) (made : List Place) (xs : List Ranked) (p : Picked) →
        picked_least es made xs ≡ Some p → IsTurn es made xs p.op.does p.rest }
    ensures none { (es : List Entry) (made : List Place) (xs : List Ranked) →
        picked_least es made xs ≡ None → (y : Ranked) → IsIn y xs
        → is_ready es made y.does ≡ false }
    ensures in_turn { (es : List Entry) (n : ℕ) (made : List Place) (xs : List Ranked) →
        length xs ≤ n → InTurn es made xs (ordered es n made xs) }
{}

/// A sound graph forms just one plan over so many sources, in whatever order its classes are told,
/// and whichever list its marked collections are told in. A well-formed graph always forms one.
pub fn one_law()
    ensures some { (sources : ℕ) (b : Blocked) → IsGraphOk b.graph →
        (p : Plan) × IsFormed sources b p }
    ensures operations { (a b : Blocked) (os ps : List Operation) → IsSound a.graph →
        a.graph ≡ b.graph → ((c : Place) → among c a.marks ≡ among c b.marks) →
        AreFormed a os → AreFormed b ps → os ≡ ps }
    ensures plan { (sources : ℕ) (a b : Blocked) (p q : Plan) → IsSound a.graph →
        a.graph ≡ b.graph → ((c : Place) → among c a.marks ≡ among c b.marks) →
        IsFormed sources a p → IsFormed sources b q → p ≡ q }
{}
