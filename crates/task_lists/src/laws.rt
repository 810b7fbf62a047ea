// Laws of the tasks of a plan: their lists, sizes, traps and types.
ghost use Rattle.std.specs.Prelude.{◌≡◌, ◌<◌, ◌↔◌, ℕ, Bool, List, [], ◌∷◌, IsSomeAnd, Option, Some, None, length, map, slice_get};
ghost use Rattle.std.specs.List.{AllByRecursion, Contains};
ghost use Rattle.std.specs.Option.{option_map_or};
ghost use Rattle.flume_value.specs.declared.value.Value.{Value};
ghost use Rattle.flume_value.specs.Bag.{bag_of};
ghost use Rattle.flume_collection.specs.declared.trap.Trap.{Trap};
ghost use Rattle.flume_types.specs.declared.types.Ty.{Ty};
ghost use Rattle.bag_groups.specs.Combining.{groups_in};
ghost use Rattle.bag_groups.specs.Groups.{grouped};
ghost use Rattle.combine_table.specs.declared.comb.Comb.{Comb};
ghost use Rattle.shuffle_parts.specs.of_partial_tables.Merges.{merged_by_key, finished_each, combined_groups};
ghost use Rattle.shards.specs.Shards.{concatenated};
ghost use Rattle.shuffle_parts.specs.declared.out.MapOut.{MapOut};
ghost use Rattle.shuffle_parts.specs.Outs.{all_passed, all_pairs, all_partials};
ghost use Rattle.exec_plan.specs.of_exec_graph.Typing.{Signatures, IsWorldTyped};
ghost use Rattle.exec_plan.specs.of_exec_graph.World.{World};
ghost use Rattle.exec_plan.specs.of_exec_graph.Calls.{called};
ghost use Rattle.exec_plan.specs.of_exec_graph.declared.graph.Act.TheVariants as act;
ghost use Rattle.exec_plan.specs.of_exec_graph.declared.step.Does.TheVariants as does;
ghost use Rattle.exec_plan.specs.declared.plan.Grouping.{Grouping};
ghost use Rattle.exec_plan.specs.declared.plan.InChannel.{InChannel};
ghost use Rattle.exec_plan.specs.declared.plan.Mscr.{Mscr};
ghost use Rattle.exec_plan.specs.declared.plan.OutChannel.TheVariants.{Group, Pass};
ghost use Rattle.exec_plan.specs.declared.plan.Plan.{Plan};
ghost use Rattle.exec_plan.specs.declared.plan.PlanPlace.{PlanPlace};
ghost use Rattle.exec_plan.specs.declared.plan.Stage.{Stage};
ghost use Rattle.exec_plan.specs.declared.plan.Stage.TheVariants as stage;
ghost use Rattle.exec_plan.specs.declared.plan.Take.{Take};
ghost use Rattle.exec_plan.specs.Meaning.{plan_collection, emitted_by, plan_traps};
ghost use Rattle.exec_plan.specs.Typing.{IsPlanTyped, IsPlanTypedBy, MscrTyped, StageTyped};
ghost use Rattle.exec_plan.specs.Wellformed.{Exists, IsLiftOk, IsPlanOk, IsStageOk};
ghost use Rattle.task_lists.specs.Tasks.{Split, Lists, Task, given_to, map_task, map_task_of, gathered, reduce_task, map_phase, map_count, map_task_at, reduce_phase, reduce_count, reduce_task_at, grouping_at};
ghost use Rattle.task_lists.specs.Lists.{lists, result_lists, source_lists, with_lists};
ghost use Rattle.task_lists.specs.Plans.{AreSidesFirst, first_trap, counted_size, stage_tasks, task_traps};
ghost use Rattle.task_lists.specs.Outs.{answers_of, AreMapOuts, IsCalm, IsFirstTaskTrap};
ghost use Rattle.task_lists.specs.Typing.{AreGroupable, AreListsTyped, IsTaskTyped};

/// The tasks of a plan, for any number of shards and partitions. That the sizes and the traps are
/// the plan's needs a well-formed plan, in which no stage reads what is made later. For the sizes,
/// steps that are called beside an object are to emit to their first outputs alone, as they do in a
/// plan whose types fit.
pub fn tasks_law()
    // Where no task and no making of an object traps, the list of each collection has its bag.
    ensures lists { (w : World) (n : Split) (p : Plan) → 0 < n.shards → 0 < n.partitions →
        first_trap w n p ≡ None → (c : PlanPlace) →
        bag_of (lists w n p c) ≡ (plan_collection w p c).bag }
    // Then the tasks count the members of each script node's bag.
    ensures sizes { (w : World) (n : Split) (p : Plan) → 0 < n.shards → 0 < n.partitions →
        AreSidesFirst p → IsPlanOk p → first_trap w n p ≡ None → (i : ℕ) →
        counted_size w n p i ≡ length (emitted_by w p i) }
    // One of them traps exactly where the plan has a trap.
    ensures through { (w : World) (n : Split) (p : Plan) → 0 < n.shards → 0 < n.partitions →
        IsPlanOk p → (first_trap w n p ≡ None) ↔ (plan_traps w p ≡ []) }
    // The first trap is one of the plan's.
    ensures trapped { (w : World) (n : Split) (p : Plan) (e : Trap) → 0 < n.shards →
        0 < n.partitions → IsPlanOk p → first_trap w n p ≡ Some e →
        Contains (plan_traps w p) e }
{}

/// What is said of the tasks of a phase, in order of tasks, is said of them by their numbers.
pub fn numbers_law()
    ensures map_traps { (f : Task → List Trap) (n : Split) (t : Lists) (s : Mscr) → 0 < n.shards →
        map_phase f n t s ≡ concatenated (λ k. f (map_task_at n t s k)) (map_count n s) }
    ensures map_counts { (f : Task → List ℕ) (n : Split) (t : Lists) (s : Mscr) → 0 < n.shards →
        map_phase f n t s ≡ concatenated (λ k. f (map_task_at n t s k)) (map_count n s) }
    ensures reduce_traps { (f : Grouping → Task → List Trap) (w : World) (n : Split) (t : Lists)
        (s : Mscr) → 0 < n.partitions → reduce_phase f w n t s
        ≡ concatenated (λ k. option_map_or (λ g. f g (reduce_task_at w n t s k)) (grouping_at n s k)
        [])
        (reduce_count n s) }
    ensures reduce_counts { (f : Grouping → Task → List ℕ) (w : World) (n : Split) (t : Lists)
        (s : Mscr) → 0 < n.partitions → reduce_phase f w n t s
        ≡ concatenated (λ k. option_map_or (λ g. f g (reduce_task_at w n t s k)) (grouping_at n s k)
        [])
        (reduce_count n s) }
{}

/// Which trap of a stage is the first: that of the least trapping map task; where none traps, that
/// of the least trapping reduce task.
pub fn first_law()
    ensures calm { (w : World) (n : Split) (t : Lists) (s : Mscr) → 0 < n.shards →
        0 < n.partitions → ((k : ℕ) → k < map_count n s → IsCalm w (map_task_at n t s k)) →
        ((k : ℕ) → k < reduce_count n s → IsCalm w (reduce_task_at w n t s k)) →
        stage_tasks (task_traps w) w n t (stage.Mscr s) ≡ [] }
    ensures maps { (w : World) (n : Split) (t : Lists) (s : Mscr) (k : ℕ) (e : Trap) →
        0 < n.shards → 0 < n.partitions → k < map_count n s →
        ((i : ℕ) → i < k → IsCalm w (map_task_at n t s i)) →
        IsFirstTaskTrap w (map_task_at n t s k) e →
        slice_get (stage_tasks (task_traps w) w n t (stage.Mscr s)) 0 ≡ Some e }
    ensures reduces { (w : World) (n : Split) (t : Lists) (s : Mscr) (k : ℕ) (e : Trap) →
        0 < n.shards → 0 < n.partitions →
        ((i : ℕ) → i < map_count n s → IsCalm w (map_task_at n t s i)) → k < reduce_count n s →
        ((i : ℕ) → i < k → IsCalm w (reduce_task_at w n t s i)) →
        IsFirstTaskTrap w (reduce_task_at w n t s k) e →
        slice_get (stage_tasks (task_traps w) w n t (stage.Mscr s)) 0 ≡ Some e }
{}

/// What is gathered of the outs of all map tasks of a stage: the list of a pass-through channel; of
/// each partition of a grouping channel pairs whose groups are the elements of the reduce task; and
/// of a lifted one accumulators that finish, merged by key, as those groups combine, however the
/// pairs were shared out and however often a table was emptied.
pub fn outs_law()
    ensures passed { (w : World) (n : Split) (t : Lists) (s : Mscr) (outs : List MapOut)
        (r number : ℕ) (k : Take) → 0 < n.shards → AreMapOuts w n t s outs →
        slice_get s.outputs r ≡ Some (Pass k number) →
        all_passed outs r ≡ Some (gathered w n t s.inputs (k ∷ [])) }
    ensures groups { (w : World) (n : Split) (t : Lists) (s : Mscr) (outs : List MapOut)
        (r p : ℕ) (g : Grouping) → 0 < n.shards → p < n.partitions → AreMapOuts w n t s outs →
        slice_get s.outputs r ≡ Some (Group g) → g.lifted ≡ None →
        IsSomeAnd (all_pairs outs r p)
        (λ pairs. grouped pairs ≡ (reduce_task w n t s.inputs g p).elements) }
    ensures combined { (w : World) (n : Split) (t : Lists) (s : Mscr) (outs : List MapOut)
        (r p : ℕ) (g : Grouping) (c : Comb) → 0 < n.shards → p < n.partitions →
        AreMapOuts w n t s outs → slice_get s.outputs r ≡ Some (Group g) → g.lifted ≡ Some c →
        IsSomeAnd (all_partials outs r p) (λ partials. finished_each c (merged_by_key c partials)
        ≡ combined_groups c (groups_in (reduce_task w n t s.inputs g p).elements)) }
    // So they finish as the root of the reducer answers of those groups, traps included.
    ensures answered { (w : World) (n : Split) (t : Lists) (s : Mscr) (outs : List MapOut)
        (r p : ℕ) (g : Grouping) (c : Comb) → 0 < n.shards → p < n.partitions →
        AreMapOuts w n t s outs → slice_get s.outputs r ≡ Some (Group g) → g.lifted ≡ Some c →
        IsSomeAnd (all_partials outs r p)
        (λ partials. answers_of (finished_each c (merged_by_key c partials))
        ≡ map (called w (does.Combine c)) (reduce_task w n t s.inputs g p).elements) }
{}

/// Of an object whose list is empty nothing is made: the list of an Operate that reads it is empty,
/// and the tasks of a channel beside it have no elements.
pub fn empty_law()
    ensures operate { (w : World) (n : Split) (t : Lists) (takes : List PlanPlace) (o f k : ℕ)
        (l : Bool) (c : PlanPlace) → slice_get takes k ≡ Some c → t c ≡ [] →
        result_lists w n t (stage.Operate takes o l (act.Operate f)) ≡ [] ∷ [] }
    ensures beside { (n : Split) (t : Lists) (c : InChannel) (object : PlanPlace) (i : ℕ) →
        c.beside ≡ Some object → t object ≡ [] → (map_task n t c i).elements ≡ [] }
{}

/// In a well-formed plan whose types fit, over a typed world, the lists have their collections'
/// types. So each task's elements are of a type that its steps take, and what a grouping channel is
/// given is what it takes.
pub fn typed_law()
    ensures sources { (g : Signatures) (w : World) (p : Plan) (types : PlanPlace → Ty) →
        IsWorldTyped g w → IsPlanTypedBy g p types → AreListsTyped types (source_lists w) }
    // After a stage as well as before it.
    ensures results { (g : Signatures) (w : World) (n : Split) (types : PlanPlace → Ty) (t : Lists)
        (k sources : ℕ) (before : List Stage) (s : Stage) → IsWorldTyped g w →
        AreListsTyped types t → StageTyped g types k s → IsStageOk sources before s →
        AreListsTyped types (with_lists k (result_lists w n t s) t) }
    ensures maps { (g : Signatures) (w : World) (n : Split) (types : PlanPlace → Ty) (t : Lists)
        (k m i : ℕ) (s : Mscr) → IsWorldTyped g w → AreListsTyped types t →
        MscrTyped g types k s → IsTaskTyped g (map_task_of n t s.inputs m i) }
    ensures reduces { (g : Signatures) (w : World) (n : Split) (types : PlanPlace → Ty) (t : Lists)
        (k r p : ℕ) (s : Mscr) (c : Grouping) → IsWorldTyped g w → AreListsTyped types t →
        MscrTyped g types k s → slice_get s.outputs r ≡ Some (Group c) →
        AllByRecursion (Exists s.inputs) c.takes →
        IsTaskTyped g (reduce_task w n t s.inputs c p) }
    // A grouping channel is given pairs, and a lifted one pairs that its combiner takes.
    ensures given { (g : Signatures) (w : World) (n : Split) (types : PlanPlace → Ty) (t : Lists)
        (k r m i : ℕ) (s : Mscr) (c : Grouping) → IsWorldTyped g w → AreListsTyped types t →
        MscrTyped g types k s → slice_get s.outputs r ≡ Some (Group c) →
        AllByRecursion (Exists s.inputs) c.takes → IsLiftOk c.lifted c.does →
        AreGroupable c.lifted (given_to w (map_task_of n t s.inputs m i) m c.takes) }
    // Steps that are called beside an object emit to their first outputs alone.
    ensures beside { (g : Signatures) (p : Plan) → IsPlanTyped g p → AreSidesFirst p }
{}
