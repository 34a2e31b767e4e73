// Worked values of the definitions: each function has no body, and its contract is the equations.
ghost use Rattle.std.specs.Prelude.{◌≡◌, [], ◌∷◌, map, Some, None, codes};
ghost use Rattle.std.specs.Fmt.{decimal};
ghost use Rattle.elem_core.specs.declared.why.Decider.TheVariants.{Stop, Resume};
ghost use Rattle.elem_core.specs.declared.function.MapFn.TheVariants as f;
ghost use Rattle.stream_model.specs.declared.kind.Kind.TheVariants as k;
ghost use Rattle.blue_modules.specs.declared.text.PortMark.TheVariants.{Num, Name};
ghost use Rattle.blue_modules.specs.declared.text.LaneMark.TheVariants.{Fused};
ghost use Rattle.blue_modules.specs.declared.fault.ModuleFault.TheVariants.{TwoNames, NoSuchModule, NoSuchName, PortName};
ghost use Rattle.blue_modules.specs.Text.{no_attrs};
ghost use Rattle.blue_modules.specs.Flatten.{flat};
ghost use Rattle.blue_modules.specs.Fitness.{rule_fault};
ghost use Rattle.blue_modules.specs.Samples.{input_port, use_entry, node_entry, wire_entry, positive, positives, flat_nodes, flat_wires, single, using_twice, text_using};

/// A module between two files: its nodes stand where its instance does, under the instance's name, and what it and the text set
/// reaches them. A module's own decider wins over the text's.
pub fn one_instance()
    ensures fit { rule_fault (positives (positive no_attrs) (codes "pos")) ≡ None }
    ensures nodes { (flat (positives (positive no_attrs) (codes "pos"))).nodes ≡ flat_nodes Resume }
    ensures wires { (flat (positives (positive no_attrs) (codes "pos"))).wires ≡ flat_wires }
    ensures decided { (flat (positives (positive (record { size = None; decider = Some Stop })) (codes "pos"))).nodes ≡ flat_nodes Stop }
{}

/// Names of instances of instances.
pub fn nested()
    ensures { map (λ n. n.name) (flat (text_using (single ∷ using_twice (codes "d") (codes "m") ∷ []) (codes "d"))).nodes ≡ codes "a.a.s" ∷ codes "a.b.s" ∷ [] }
{}

/// The first rule that is broken.
pub fn faults()
    ensures no_module { rule_fault (positives (positive no_attrs) (codes "nomod")) ≡ Some (NoSuchModule (codes "nomod")) }
    ensures later_module { rule_fault (text_using (using_twice (codes "d") (codes "m") ∷ single ∷ []) (codes "d")) ≡ Some (NoSuchModule (codes "m")) }
    ensures itself { rule_fault (text_using (using_twice (codes "d") (codes "d") ∷ []) (codes "d")) ≡ Some (NoSuchModule (codes "d")) }
    ensures two_modules { rule_fault (text_using (single ∷ single ∷ []) (codes "m")) ≡ Some (TwoNames (codes "m")) }
    ensures no_name { rule_fault (record (text_using [] (codes "m")) { body = wire_entry (codes "a") (Num 0) (codes "b") (Num 0) Fused ∷ [] }) ≡ Some
        (NoSuchName (codes "a")) }
    ensures two_inputs { rule_fault (text_using (record (positive no_attrs) {
      ports = input_port (codes "i") (codes "n") (Num 0)
          ∷ input_port (codes "i") (codes "t") (Num 0) ∷ [];
    } ∷ []) (codes "pos")) ≡ Some (PortName (codes "pos") (codes "i")) }
    ensures other_direction { rule_fault (record (text_using (positive no_attrs ∷ []) (codes "pos")) {
      body = use_entry (codes "a") (codes "pos")
          ∷ wire_entry (codes "a") (Name (codes "i")) (codes "a") (Name (codes "i")) Fused ∷ [];
    }) ≡ Some (PortName (codes "a") (codes "i")) }
    ensures number_of_instance { rule_fault (record (text_using (positive no_attrs ∷ []) (codes "pos")) {
      body = use_entry (codes "a") (codes "pos")
          ∷ wire_entry (codes "a") (Num 7) (codes "a") (Name (codes "i")) Fused ∷ [];
    }) ≡ Some (PortName (codes "a") (decimal 7)) }
    ensures name_of_node { rule_fault (record (text_using (single ∷ []) (codes "m")) {
      body = node_entry (codes "s") (k.Map f.Num)
          ∷ wire_entry (codes "s") (Name (codes "x")) (codes "s") (Num 0) Fused ∷ [];
    }) ≡ Some (PortName (codes "s") (codes "x")) }
{}
