// Laws and worked values of the definitions: each function has no body, and its contract is what holds.
ghost use Rattle.std.specs.Prelude.{◌≡◌, ◌≤◌, ℕ, List, [], ◌++◌, length, Option, Ok, Some, None, MatchOption, codes};
ghost use Rattle.elem_core.specs.Text.{lines};
ghost use Rattle.elem_core.specs.declared.why.Decider.{Decider};
ghost use Rattle.stream_model.specs.declared.kind.Kind.{Kind};
ghost use Rattle.blue_modules.specs.declared.text.StepText.{StepText};
ghost use Rattle.blue_modules.specs.Text.{PlainText};
ghost use Rattle.blue_words.specs.declared.fault.BlueKind.TheVariants.{BadVersion, BadLine, BadName, BadNumber};
ghost use Rattle.blue_words.specs.declared.fault.Version.{Version};
ghost use Rattle.blue_words.specs.declared.fault.Version.TheVariants.{Second};
ghost use Rattle.blue_kinds.specs.Steps.{read_chain};
ghost use Rattle.blue_lang.specs.Kinds.{kind_words, decider_words};
ghost use Rattle.blue_lang.specs.Texts.{Says, text_of, declarations, text_fault, said_words};
ghost use Rattle.blue_lang.specs.Canonical.{canonical, steps_words};
ghost use Rattle.blue_lang.specs.Declarations.{read_decided};
ghost use Rattle.blue_lang.specs.Spelling.{AllWords};

/// A text says at most one thing.
pub fn one_text_says_one_text()
    ensures { (text : List ℕ) (s t : PlainText) → Says text s → Says text t → s ≡ t }
{}

/// Every text either has a first fault, and then it says nothing, or it says what its lines declare.
pub fn a_text_says_something_or_has_a_fault()
    ensures { (text : List ℕ) → MatchOption (text_fault text) (Says text (text_of (declarations (lines text)))) (λ f. (t : PlainText) → ¬ (Says text t)) }
{}

/// The canonical text of what a text of either version says says the same, where it is no longer than a text may be. So with the
/// clauses of `parse` and `print`, what was parsed and is printed is parsed again as the same.
pub fn canonical_texts_say_their_texts()
    ensures { (text : List ℕ) (t : PlainText) → Says text t → length (canonical t) ≤ 1048576 → Says (canonical t) t }
{}

/// Texts whose lines, those that are passed over left out, have the same words say the same: nothing else of a text counts.
pub fn words_alone_say_a_text()
    ensures { (text other : List ℕ) (s t : PlainText) → Says text s → Says other t → said_words text ≡ said_words other → s ≡ t }
{}

/// What is read of a stage's kind and decider in a text of either version is read again from their canonical words in one of
/// version 2.
pub fn kinds_are_read_again()
    ensures { (v : Version) (ws rest : List (List ℕ)) (kind : Kind) (decider : Option Decider) → AllWords ws
        → read_decided v ws ≡ Some (Ok (kind, decider), rest)
        → read_decided Second (kind_words kind ++ decider_words decider) ≡ Some (Ok (kind, decider), []) }
{}

/// The same of the steps of a chain.
pub fn chains_are_read_again()
    ensures { (v : Version) (ws rest : List (List ℕ)) (steps : List StepText) → AllWords ws → read_chain v ws ≡ Some (Ok steps, rest)
        → read_chain Second (steps_words steps) ≡ Some (Ok steps, []) }
{}

/// First faults of small texts.
pub fn texts_have_first_faults()
    ensures empty { text_fault [] ≡ Some (record { kind = BadVersion; line = 0 }) }
    ensures version { text_fault (codes "\n# a\nstreams 3\n") ≡ Some (record { kind = BadVersion; line = 3 }) }
    ensures function { text_fault (codes "streams 1\nstage a map nosuch\n") ≡ Some (record { kind = BadLine; line = 2 }) }
    ensures number { text_fault (codes "streams 1\nstage a map add x\n") ≡ Some (record { kind = BadNumber; line = 2 }) }
    ensures name { text_fault (codes "streams 1\nwire a.0 -> B.0\n") ≡ Some (record { kind = BadName; line = 2 }) }
    ensures leftmost { text_fault (codes "streams 1\nwire a.x -> B.0\n") ≡ Some (record { kind = BadNumber; line = 2 }) }
    ensures decider { text_fault (codes "streams 1\nstage a take 1 decider stop\n") ≡ Some (record { kind = BadLine; line = 2 }) }
    ensures good { text_fault
        (codes "  streams  1\nsource src lines in.txt\nstage m map num\nsink out lines out.txt\nwire src.0 -> m.0\nwire m.0 -> out.0 async") ≡ None }
{}
