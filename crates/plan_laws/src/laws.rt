// What a stage that chooses gave by the first of the moves of a plan: each function has no body, and its contract is the law.
ghost use Rattle.std.specs.Prelude.{◌≡◌, ◌≤◌, ◌⊎◌, ℕ, List, [], ◌++◌, length, true};
ghost use Rattle.elem_core.specs.Prefix.{IsPrefix};
ghost use Rattle.elem_core.specs.Tree.{Tree};
ghost use Rattle.stream_model.specs.FanIn.{Inflow, AllAgree};
ghost use Rattle.stream_model.specs.Outlook.{Outlook, End, unended, Agrees};
ghost use Rattle.stream_model.specs.declared.kind.Policy.{Policy};
ghost use Rattle.stream_model.specs.Picks.{merge_fits, merge_outlook, MergeStands, hub_outlook, softened, sent_to, balance_fits, balance_outlook, BalanceStands, buffer_fits, buffer_outlook, BufferStands, recover_fits, recover_outlook, RecoverStands, acted, valve_outlook, ValveStands};
ghost use Rattle.stream_model.specs.Machine.{Given};
ghost use Rattle.stream_model.specs.Substreams.{Opening, merge_subs, subs_fit, MergedStands};
ghost use Rattle.stream_model.specs.Graph.{Graph, Node};
ghost use Rattle.stream_model.specs.Node.{World};
ghost use Rattle.stream_model.specs.Composed.{composed, sink_outlook};
ghost use Rattle.stream_model.specs.Sources.{File};
ghost use Rattle.plan_laws.specs.Sure.{AllSure, HeldTo};
ghost use Rattle.plan_laws.specs.Unread.{AlikeSources, with_files};

/// Where a plan fits the outlooks of a stage's inputs, and no failure may come there, what the stage gave by the first moves of the plan
/// agrees with the outlook that its output has by the whole plan: a merge, a merge hub, an output of a balance, a recover; and a buffer
/// that drops and merged substreams, where no failure may come on their output. An output of a balance that dropped elements and was
/// given no end needs neither. A valve's plan needs neither: it made it, or it made none of it and gave no end and no more elements than
/// the plan counts.
pub fn choices_serve_their_plan()
    ensures merge { (made rest : List ℕ) (os : List Outlook) (ins : List Inflow) (g : List Tree) (e : End) → merge_fits (made ++ rest) os ≡ true
        → AllSure os → AllAgree os ins → MergeStands made ins g e
        → Agrees (merge_outlook (made ++ rest) os) g e }
    ensures hub { (made rest : List ℕ) (os : List Outlook) (ins : List Inflow) (g : List Tree) (e : End) → merge_fits (made ++ rest) os ≡ true → AllSure os
        → AllAgree os ins → MergeStands made (softened ins) g e
        → Agrees (hub_outlook (made ++ rest) os) g e }
    ensures recover { (t : Tree) (made rest : List ℕ) (o : Outlook) (f : Inflow) (g : List Tree) (e : End) → recover_fits (made ++ rest) o ≡ true
        → o.fails ≡ [] → Agrees o f.list f.end → RecoverStands t made f g e
        → Agrees (recover_outlook t (made ++ rest) o) g e }
    ensures balance { (n i : ℕ) (made rest : List ℕ) (o : Outlook) (f : Inflow) (g : List Tree) (e : End) → balance_fits n (made ++ rest) o ≡ true
        → o.fails ≡ [] → Agrees o f.list f.end → BalanceStands made i f g e
        → Agrees (balance_outlook (made ++ rest) o i) g e }
    ensures dealt { (i : ℕ) (made rest : List ℕ) (o : Outlook) (f : Inflow) (g : List Tree) → Agrees o f.list f.end → length made ≤ length f.list
        → IsPrefix g (sent_to i made f.list)
        → Agrees (balance_outlook (made ++ rest) o i) g unended }
    ensures valve { (node : ℕ) (o : Outlook) (f : Inflow) (g : List Tree) → Agrees o f.list f.end → (made rest : List ℕ) (e : End)
        → ((made ≡ []) × HeldTo (acted rest) g e) ⊎ (rest ≡ []) → ValveStands node (acted made) f g e → Agrees (valve_outlook node (made ++ rest) o) g e }
    ensures buffer { (node : ℕ) (p : Policy) (n : ℕ) (made rest : List ℕ) (o : Outlook) (f : Inflow) (g : List Tree) (e : End)
        → buffer_fits p n (made ++ rest) o ≡ true → o.fails ≡ [] → (buffer_outlook node p n (made ++ rest) o).fails ≡ []
        → Agrees o f.list f.end → BufferStands node p n made f g e → Agrees (buffer_outlook node p n (made ++ rest) o) g e }
    ensures substreams { (yields : List Tree → End → Given Tree) (node : ℕ) (o : Opening) (made rest : List ℕ) (i : Outlook) (l : List Tree) (e : End)
        (g : List Tree) (f : End) → subs_fit yields node o (made ++ rest) i ≡ true
        → (merge_subs yields node o (made ++ rest) i).fails ≡ [] → Agrees i l e → MergedStands yields node o made l e g f
        → Agrees (merge_subs yields node o (made ++ rest) i) g f }
{}

/// Where no read of an input file failed, what may pass each wire, and what a sink may take, is of the files' bytes alone, whatever was read
/// of them.
pub fn outlooks_are_of_bytes()
    ensures wires { (g : Graph) (w : World) (file : List ℕ → File) → AlikeSources g file w.file → (i : ℕ) → composed g (with_files file w) i ≡ composed g w i }
    ensures sinks { (g : Graph) (w : World) (file : List ℕ → File) → AlikeSources g file w.file → (node : ℕ) (n : Node)
        → sink_outlook g (with_files file w) node n ≡ sink_outlook g w node n }
{}
