// The laws of a chain of linear stages, each as a public function without a body whose contract is the law.
ghost use Rattle.std.specs.Prelude.{◌≡◌, true, List, [], ◌∷◌, ◌++◌};
ghost use Rattle.elem_core.specs.Tree.{Tree};
ghost use Rattle.port_core.specs.declared.chain.ChainStep.{ChainStep};
ghost use Rattle.port_core.specs.ListFunction.{Pushed, FunctionFinished, goes_on};
ghost use Rattle.stream_model.specs.Outlook.{End, unended, ended};
ghost use Rattle.stream_model.specs.Machine.{led_by};
ghost use Rattle.stream_model.specs.Linear.{Book};
ghost use Rattle.stream_model.specs.Substreams.{Chain, through};
ghost use Rattle.step_work.specs.Means.{Means};
ghost use Rattle.step_work.specs.LineChains.{chain_step, end_step, is_unended, chain_outs, after, list_function};

/// What a chain of linear stages gives, for a list that stands so, is what its list function means.
pub fn a_line_means_its_list_function()
    ensures { (book : Book) (steps : Chain) → Means (through book steps) (list_function book steps) }
{}

/// A list may come to a chain in two parts: what the stages gave for the first is in front of what they give for the second
/// from where they stand then.
pub fn a_list_may_come_in_two_parts()
    ensures { (book : Book) (steps : Chain) (l r : List Tree) (e : End) → through book steps (l ++ r) e ≡ led_by (chain_outs book steps l)
        (through book (after book steps l) r e) }
{}

/// A call that runs the stages from where they stand, and answers how the last one stands then, is a call of the chain by its
/// list function.
pub fn stages_keep_their_list_function()
    ensures push { (book : Book) (steps : Chain) (t : Tree) (step : ChainStep) (before now : List Tree)
        → step ≡ chain_step (through book steps (t ∷ []) unended).end → now ≡ before ++ (through book steps (t ∷ []) unended).list
        → Pushed (list_function book steps) t step before now (list_function book (after book steps (t ∷ []))) }
    ensures open { (book : Book) (steps : Chain) (t : Tree) → is_unended (through book (after book steps (t ∷ [])) [] unended).end ≡ goes_on
        (chain_step (through book steps (t ∷ []) unended).end) }
    ensures end { (book : Book) (steps : Chain) (before now : List Tree) → is_unended (through book steps [] unended).end ≡ true
        → now ≡ before ++ (through book steps [] ended).list
        → FunctionFinished (list_function book steps) (end_step (through book steps [] ended).end) before now }
{}
