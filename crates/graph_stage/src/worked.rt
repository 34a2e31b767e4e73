// Worked values of the definitions: each function has no body, and its contract is the equations.
ghost use Rattle.std.specs.Prelude.{◌≡◌, [], ◌∷◌, None, Some, true, false, codes, pos};
ghost use Rattle.elem_core.specs.Sort.{num_type, text_type};
ghost use Rattle.elem_core.specs.Tree.{num, text};
ghost use Rattle.elem_core.specs.declared.why.Why.TheVariants as why;
ghost use Rattle.port_core.specs.declared.act.Act.TheVariants as act;
ghost use Rattle.graph_stage.specs.declared.ask.Ask.TheVariants as ask;
ghost use Rattle.graph_stage.specs.OwnView.{carried_out};
ghost use Rattle.graph_stage.specs.Samples.{in_seen, out_seen, one_by_one, at_third, behind_three, own_failure};
ghost use Rattle.graph_stage.specs.Standing.{without_taken_back};

/// An ask that the port rules forbid fails the stage, by the code of the rule, and the rest is dropped; those before it are carried out.
pub fn a_forbidden_ask_fails_the_stage()
    ensures pushed_twice { carried_out (text_type ∷ []) at_third (one_by_one (in_seen false false) (out_seen true false))
        (ask.Push 0 (text (codes "a")) ∷ ask.Push 0 (text (codes "a")) ∷ ask.Pull 0 ∷ []) ≡ record {
          acts = act.Push 0 (text (codes "a")) ∷ act.FailOut 0 (own_failure 3 (why.IllegalCall 2)) ∷ act.Cancel 0 ∷ [];
          sight = one_by_one (in_seen false true) (out_seen false true);
        } }
    ensures pulled_twice { carried_out (text_type ∷ []) (behind_three None) (one_by_one (in_seen false false) (out_seen true false))
        (ask.Pull 0 ∷ ask.Pull 0 ∷ []) ≡ record {
          acts = act.Pull 0 ∷ act.FailOut 0 (own_failure 3 (why.IllegalCall 1)) ∷ act.Cancel 0 ∷ [];
          sight = one_by_one (in_seen true true) (out_seen true true);
        } }
    ensures pulled_behind_the_end { carried_out (text_type ∷ []) (behind_three None) (one_by_one (in_seen false true) (out_seen true false))
        (ask.Pull 0 ∷ []) ≡ record {
          acts = act.FailOut 0 (own_failure 3 (why.IllegalCall 1)) ∷ [];
          sight = one_by_one (in_seen false true) (out_seen true true);
        } }
    ensures no_such_port { carried_out (text_type ∷ []) at_third (one_by_one (in_seen false false) (out_seen true false)) (ask.Cancel 1 ∷ []) ≡ record {
      acts = act.FailOut 0 (own_failure 3 (why.IllegalCall 3)) ∷ act.Cancel 0 ∷ [];
      sight = one_by_one (in_seen false true) (out_seen true true);
    } }
    ensures another_type { carried_out (text_type ∷ []) at_third (one_by_one (in_seen false false) (out_seen true false))
        (ask.Push 0 (num (pos 7)) ∷ []) ≡ record {
          acts = act.FailOut 0 (own_failure 3 (why.IllegalCall 4)) ∷ act.Cancel 0 ∷ [];
          sight = one_by_one (in_seen false true) (out_seen true true);
        } }
    ensures another_type_unasked { carried_out (text_type ∷ []) at_third (one_by_one (in_seen false false) (out_seen false false))
        (ask.Push 0 (num (pos 7)) ∷ []) ≡ record {
          acts = act.FailOut 0 (own_failure 3 (why.IllegalCall 2)) ∷ act.Cancel 0 ∷ [];
          sight = one_by_one (in_seen false true) (out_seen false true);
        } }
    ensures no_failure_came { carried_out (text_type ∷ []) at_third (one_by_one (in_seen false false) (out_seen true false)) (ask.Pass ∷ []) ≡ record {
      acts = act.FailOut 0 (own_failure 3 (why.IllegalCall 5)) ∷ act.Cancel 0 ∷ [];
      sight = one_by_one (in_seen false true) (out_seen true true);
    } }
{}

/// A stage that fails by itself has its own code and the number of the element that came, if one did; one that passes a failure on has its
/// cause.
pub fn a_failure_has_its_cause()
    ensures own_code { carried_out (text_type ∷ []) at_third (one_by_one (in_seen false false) (out_seen true false)) (ask.Fail 9 ∷ []) ≡ record {
      acts = act.FailOut 0 (own_failure 3 (why.Plug 9)) ∷ act.Cancel 0 ∷ [];
      sight = one_by_one (in_seen false true) (out_seen true true);
    } }
    ensures without_element { carried_out (text_type ∷ []) (behind_three None) (one_by_one (in_seen false false) (out_seen true false))
        (ask.Fail 9 ∷ []) ≡ record {
          acts = act.FailOut 0 (own_failure 0 (why.Plug 9)) ∷ act.Cancel 0 ∷ [];
          sight = one_by_one (in_seen false true) (out_seen true true);
        } }
    ensures passed_on { carried_out (text_type ∷ []) (behind_three (Some (own_failure 1 why.Overflow))) (one_by_one (in_seen false true) (out_seen false false))
        (ask.Pass ∷ []) ≡ record {
          acts = act.FailOut 0 (own_failure 1 why.Overflow) ∷ [];
          sight = one_by_one (in_seen false true) (out_seen false true);
        } }
{}

/// An ask that changes nothing has no action, and behind an end of all ports nothing has; a pull whose input the same call closes is taken
/// back.
pub fn an_ask_without_effect_has_no_action()
    ensures completed_twice { carried_out (text_type ∷ []) at_third (one_by_one (in_seen false false) (out_seen true false))
        (ask.Complete 0 ∷ ask.Complete 0 ∷ []) ≡ record {
          acts = act.Complete 0 ∷ [];
          sight = one_by_one (in_seen false false) (out_seen true true);
        } }
    ensures pushed_behind_the_end { carried_out (text_type ∷ []) at_third (one_by_one (in_seen false false) (out_seen true false))
        (ask.Finish ∷ ask.Push 0 (text (codes "a")) ∷ []) ≡ record {
          acts = act.Complete 0 ∷ act.Cancel 0 ∷ [];
          sight = one_by_one (in_seen false true) (out_seen true true);
        } }
    ensures taken_back { without_taken_back (one_by_one (in_seen true true) (out_seen true false)) (act.Pull 0 ∷ act.Cancel 0 ∷ []) ≡ act.Cancel 0 ∷ [] }
    ensures stands { without_taken_back (one_by_one (in_seen true false) (out_seen true true)) (act.Pull 0 ∷ act.Complete 0 ∷ []) ≡ act.Pull 0 ∷ act.Complete 0
        ∷ [] }
{}
