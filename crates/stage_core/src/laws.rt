// The laws that stages and the interpreter cite, each as a public function without a body whose contract is the law. They
// are stated here for the machines of the linear stages; the lemmas behind them hold of every machine with one input.
// Choice: docs/DECISIONS.md#law-below-all-stages
ghost use Rattle.std.specs.Prelude.{◌≡◌, ℕ, ◌≤◌, List, [], ◌++◌, length, Bool};
ghost use Rattle.elem_core.specs.Tree.{Tree};
ghost use Rattle.elem_core.specs.declared.item.Item.{Item};
ghost use Rattle.port_core.specs.declared.act.Act.{Act};
ghost use Rattle.port_core.specs.declared.view.InView.{InView};
ghost use Rattle.port_core.specs.declared.view.InView.TheVariants.{Pulled};
ghost use Rattle.port_core.specs.declared.view.OutView.{OutView};
ghost use Rattle.port_core.specs.declared.view.OutView.TheVariants.{Available};
ghost use Rattle.port_core.specs.View.{View, in_at, out_at, ActsAllowed, acted_all};
ghost use Rattle.port_core.specs.Call.{Call, AllIdle, CallAllowed, seen, brought_to, given_on};
ghost use Rattle.stream_model.specs.FanIn.{Inflow, merge_of, pairs, FanStands};
ghost use Rattle.stream_model.specs.Outlook.{Outlook, End, unended, Agrees};
ghost use Rattle.stream_model.specs.Linear.{Stage};
ghost use Rattle.stream_model.specs.Picks.{MergeStands, softened_by};
ghost use Rattle.stream_model.specs.Machine.{State, Run, Machine, Stands, output};
ghost use Rattle.stage_core.specs.Held.{Held, owing, shut, gives, whole};
ghost use Rattle.stage_core.specs.Turn.{TurnAt, ResidualAt};
ghost use Rattle.stage_core.specs.Law.{TookAs, GaveAs, Law};
ghost use Rattle.stage_core.specs.Inflows.{nothing_came, joined, joined_all, untouched};
ghost use Rattle.stage_core.specs.Merges as merge;
ghost use Rattle.stage_core.specs.Merges.{MergeHeld, Merged, MergeTurnAt, MergeLaw, call_by, lists_of, moves_of};
ghost use Rattle.stage_core.specs.Outs.{Outlet, OutsLaw, TurnsAt, owe};
ghost use Rattle.stage_core.specs.Zips as zip;
ghost use Rattle.stage_core.specs.Zips.{ZipHeld, Paired, ZipTurnAt, ZipLaw, ZipStandsOf};
ghost use Rattle.stage_core.specs.Fans.{Fan, FanHeld, waits, FanPlace, untagged, fan_gives, FanTurnAt, FanLaw};
ghost use Rattle.stage_core.specs.OwnPorts.{OwnRests};

/// One step of the machine is the residual law: what is pushed, and then what the stage gives from now on, is what it gave
/// before for what came and then the rest, for every rest and every end.
pub fn a_turn_keeps_what_is_given()
    ensures { (m : Machine Stage Tree) (j : ℕ) (call : Call) (old new : Held Stage) (out : List Item) → TurnAt m j call old out new
        → ResidualAt m j call old out new }
{}

/// The law of an output holds before anything came, and every call keeps it, once the call's actions are done.
pub fn calls_keep_the_law()
    ensures new { (m : Machine Stage Tree) (start : Run Stage Tree) (i : InView) (o : OutView) → TookAs i unended → GaveAs o unended
        → (1 ≤ m.hold → start.gave ≡ []) → Law m start (owing start) i o [] [] }
    ensures call { (m : Machine Stage Tree) (start : Run Stage Tree) (j : ℕ) (call : Call) (old new : Held Stage) (v : View) (took gave : List Item)
        (acts : List Act)
        → length v.ins ≡ 1 → CallAllowed call v → ActsAllowed (seen call v) acts → TurnAt m j call old (given_on j acts) new
        → Law m start old (in_at v 0) (out_at v j) took gave
        → Law m start new (in_at (acted_all (seen call v) acts) 0) (out_at (acted_all (seen call v) acts) j) (took ++ brought_to 0 call)
        (gave ++ given_on j acts) }
{}

/// Over a whole history: what was given, and then what the stage gives from now on, is what it gives from its start for what
/// it took and then the rest; what it gave is what its machine may have given; and it agrees with the outlook of the output.
pub fn the_law_is_of_whole_histories()
    ensures rest { (m : Machine Stage Tree) (start z : Run Stage Tree) (i : InView) (o : OutView) (took gave : List Item) → Law m start (owing z) i o took gave
        → (rest : List Item) → whole m start (took ++ rest) ≡ gave ++ gives m (owing z) rest }
    ensures stands { (m : Machine Stage Tree) (start : Run Stage Tree) (x : Held Stage) (i : InView) (o : OutView) (took gave : List Item)
        → (law : Law m start x i o took gave) → Stands m start law.in_list law.in_end law.out_list law.out_end }
    ensures agrees { (m : Machine Stage Tree) (start : Run Stage Tree) (u : Outlook) (x : Held Stage) (i : InView) (o : OutView) (took gave : List Item)
        → (law : Law m start x i o took gave) → Agrees u law.in_list law.in_end → Agrees (output m start u) law.out_list law.out_end }
{}

/// A stage that is asked, waits and holds nothing has given all that it may for what it took.
pub fn a_stage_that_waits_rests()
    ensures { (m : Machine Stage Tree) (start : Run Stage Tree) (holds : Bool) (st : State Stage) (took gave : List Item)
        → (law : Law m start (owing (record { gave = []; state = st })) Pulled Available took gave)
        → OwnRests m start holds Pulled Available law.in_list law.out_list }
{}

/// The law of a stage with several inputs, a concat, an interleave or a merge_sorted: it holds before anything came, every
/// call keeps it, once the call's actions are done; and then, for every rest and every end of each input, what it gives in
/// all is what it gave and what it gives from now on, and what it gave is what such a stage may have given.
pub fn fans_keep_the_law()
    ensures new { (k : Fan FanPlace) (start : FanPlace) (v : View) → AllIdle v.ins → GaveAs (out_at v 0) unended
        → FanLaw k start (waits start (untouched (length v.ins))) v (λ _. []) [] }
    ensures call { (k : Fan FanPlace) (start : FanPlace) (call : Call) (old new : FanHeld FanPlace) (v : View) (took : ℕ → List Item) (gave : List Item)
        (acts : List Act)
        → CallAllowed call v → ActsAllowed (seen call v) acts → FanTurnAt k call old (given_on 0 acts) new → FanLaw k start old v took gave
        → FanLaw k start new (acted_all (seen call v) acts) (λ i. took i ++ brought_to i call) (gave ++ given_on 0 acts) }
    ensures rest { (k : Fan FanPlace) (start s : FanPlace) (ws : List Inflow) (v : View) (took : ℕ → List Item) (gave : List Item)
        → (law : FanLaw k start (waits s ws) v took gave)
        → (more : ℕ → Inflow) → untagged (fan_gives k start (joined_all 0 law.ins more)) ≡ law.out_list ++ untagged (fan_gives k s (joined_all 0 ws more)) }
    ensures stands { (k : Fan FanPlace) (start : FanPlace) (x : FanHeld FanPlace) (v : View) (took : ℕ → List Item) (gave : List Item)
        → (law : FanLaw k start x v took gave) → FanStands k.hold (k.from start) law.ins law.out_list law.out_end }
{}

/// The same of a zip: for every rest of its inputs, all pairs are those that it gave and those of what waits with the rest.
pub fn zips_keep_the_law()
    ensures new { (v : View) → length v.ins ≡ 2 → AllIdle v.ins → GaveAs (out_at v 0) unended → ZipLaw (zip.waits nothing_came nothing_came) v (λ _. []) [] }
    ensures call { (call : Call) (old new : ZipHeld) (v : View) (took : ℕ → List Item) (gave : List Item) (acts : List Act)
        → CallAllowed call v → ActsAllowed (seen call v) acts → ZipTurnAt call old (given_on 0 acts) new → ZipLaw old v took gave
        → ZipLaw new (acted_all (seen call v) acts) (λ i. took i ++ brought_to i call) (gave ++ given_on 0 acts) }
    ensures rest { (a b w u : Inflow) (g : List Tree) → Paired a b g w u → (r s : List Tree)
        → pairs (a.list ++ r) (b.list ++ s) ≡ g ++ pairs (w.list ++ r) (u.list ++ s) }
    ensures stands { (x : ZipHeld) (v : View) (took : ℕ → List Item) (gave : List Item) → (law : ZipLaw x v took gave)
        → ZipStandsOf law.ins law.out_list law.out_end }
{}

/// The same of a merge, by its moves: for every rest of its inputs and every further list of moves, what all the moves give
/// is what it gave, and what the further moves give of what waits with the rest. A stage that gathers owes at a failure of an input what
/// a merge owes at its end, and then stands as a merge whose inputs that failed have ended.
pub fn merges_keep_the_law()
    ensures new { (gathers : Bool) (v : View) → AllIdle v.ins → GaveAs (out_at v 0) unended
        → MergeLaw gathers (merge.waits [] (untouched (length v.ins))) v (λ _. []) [] }
    ensures call { (gathers : Bool) (call : Call) (old new : MergeHeld) (v : View) (took : ℕ → List Item) (gave : List Item) (acts : List Act)
        → CallAllowed call v → ActsAllowed (seen call v) acts → MergeTurnAt (call_by gathers call) old (given_on 0 acts) new → MergeLaw gathers old v took gave
        → MergeLaw gathers new (acted_all (seen call v) acts) (λ i. took i ++ brought_to i call) (gave ++ given_on 0 acts) }
    ensures rest { (moves : List ℕ) (ins ws : List Inflow) (g : List Tree) → Merged moves ins g ws → (more : ℕ → Inflow) (further : List ℕ)
        → untagged (merge_of (moves ++ further) (lists_of (joined_all 0 ins more))) ≡ g ++ untagged (merge_of further (lists_of (joined_all 0 ws more))) }
    ensures stands { (gathers : Bool) (x : MergeHeld) (v : View) (took : ℕ → List Item) (gave : List Item) → (law : MergeLaw gathers x v took gave)
        → MergeStands (moves_of x) (softened_by gathers law.ins) law.out_list law.out_end }
{}

// Choice: docs/DECISIONS.md#law-of-one-output
/// Each output of a stage with one input is a machine of its own over that input: a call keeps the law of them all, and
/// what an output that is closed has given stays right while the stage takes more for the others.
pub fn outputs_keep_the_law()
    ensures call { (call : Call) (outs : List (Outlet Stage)) (owed : List (Held Stage)) (v : View) (took : List Item) (gave : ℕ → List Item) (acts : List Act)
        → length v.ins ≡ 1 → CallAllowed call v → ActsAllowed (seen call v) acts → TurnsAt 0 call outs acts owed → OutsLaw 0 outs v took gave
        → OutsLaw 0 (owe outs owed) (acted_all (seen call v) acts) (took ++ brought_to 0 call) (λ j. gave j ++ given_on j acts) }
    ensures closed { (m : Machine Stage Tree) (start : Run Stage Tree) (l k : List Tree) (e : End) (g : List Tree) (f : End) → Stands m start l unended g f
        → Stands m start (l ++ k) e g f }
{}
