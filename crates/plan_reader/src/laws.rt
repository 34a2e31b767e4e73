// Laws of texts of moves: each function has no body, and its contract is the law.
ghost use Rattle.std.specs.Prelude.{◌≡◌, ℕ, List};
ghost use Rattle.plan_reader.specs.Plans.{SaysPlans, IsFault};
ghost use Rattle.plan_reader.specs.declared.plans.Chooser.{Chooser};

/// A text says one list of moves for each stage at most; it never says them and has a fault; and the number of its first line at
/// fault is one.
pub fn a_text_has_one_reading()
    ensures same { (choosers : List Chooser) (text : List ℕ) (ps qs : List (List ℕ)) → SaysPlans choosers text ps → SaysPlans choosers text qs → ps ≡ qs }
    ensures never { (choosers : List Chooser) (text : List ℕ) (ps : List (List ℕ)) (line : ℕ) → SaysPlans choosers text ps → IsFault choosers text line → ⊥ }
    ensures one { (choosers : List Chooser) (text : List ℕ) (k l : ℕ) → IsFault choosers text k → IsFault choosers text l → k ≡ l }
{}
