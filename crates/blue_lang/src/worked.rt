// Worked values of the definitions of version 2: each function has no body, and its contract is the equations.
ghost use Rattle.std.specs.Prelude.{◌≡◌, [], ◌∷◌, Some, None, codes, true, false};
ghost use Rattle.elem_core.specs.Text.{lines};
ghost use Rattle.elem_core.specs.declared.why.Decider.TheVariants.{Stop};
ghost use Rattle.blue_modules.specs.declared.text.PortMark.TheVariants.{Num, Name};
ghost use Rattle.blue_modules.specs.declared.text.LaneMark.TheVariants.{Inherited, Own};
ghost use Rattle.blue_modules.specs.declared.text.Entry.TheVariants.{Instance, Wire};
ghost use Rattle.blue_words.specs.declared.fault.BlueKind.TheVariants.{BadVersion, BadLine, BadName, BadNumber};
ghost use Rattle.blue_lang.specs.Texts.{text_fault, text_of, declarations};
ghost use Rattle.blue_lang.specs.Canonical.{canonical};

/// Lines that may not stand where they do: the first word decides, whatever the rest says.
pub fn lines_are_misplaced()
    ensures end_outside { text_fault (codes "streams 2\nend\n") ≡ Some (record { kind = BadLine; line = 2 }) }
    ensures in_outside { text_fault (codes "streams 2\nin i = n.0\n") ≡ Some (record { kind = BadLine; line = 2 }) }
    ensures switch_inside { text_fault (codes "streams 2\nmodule m\nswitch 9\n") ≡ Some (record { kind = BadLine; line = 3 }) }
    ensures module_inside { text_fault (codes "streams 2\nmodule m\nmodule n\n") ≡ Some (record { kind = BadLine; line = 3 }) }
    ensures default_again { text_fault (codes "streams 2\ndefault async 4\ndefault decider stop\n") ≡ Some (record { kind = BadLine; line = 3 }) }
    ensures no_end { text_fault (codes "streams 2\nmodule m\n") ≡ Some (record { kind = BadLine; line = 0 }) }
    ensures ended { text_fault (codes "streams 2\nmodule m\nend\n") ≡ None }
{}

/// The form of what only version 2 has.
pub fn forms_of_version_2()
    ensures version { text_fault (codes "streams 3\n") ≡ Some (record { kind = BadVersion; line = 1 }) }
    ensures first_version { text_fault (codes "streams 1\nmodule m\n") ≡ Some (record { kind = BadLine; line = 2 }) }
    ensures default_alone { text_fault (codes "streams 2\ndefault\n") ≡ Some (record { kind = BadLine; line = 2 }) }
    ensures no_module { text_fault (codes "streams 2\nuse a\n") ≡ Some (record { kind = BadLine; line = 2 }) }
    ensures no_size { text_fault (codes "streams 2\nmodule m async\n") ≡ Some (record { kind = BadLine; line = 2 }) }
    ensures bad_size { text_fault (codes "streams 2\nuse a m async x\n") ≡ Some (record { kind = BadNumber; line = 2 }) }
    ensures no_equals { text_fault (codes "streams 2\nmodule m\nin x n.0\n") ≡ Some (record { kind = BadLine; line = 3 }) }
    ensures number_of_first { text_fault (codes "streams 1\nwire a.x -> B.0\n") ≡ Some (record { kind = BadNumber; line = 2 }) }
    ensures name_of_second { text_fault (codes "streams 2\nwire a.x -> B.0\n") ≡ Some (record { kind = BadName; line = 2 }) }
    ensures upper_case { text_fault (codes "streams 2\nwire a.X -> b.0\n") ≡ Some (record { kind = BadName; line = 2 }) }
    ensures no_port { text_fault (codes "streams 2\nwire a. -> b.0\n") ≡ Some (record { kind = BadNumber; line = 2 }) }
    ensures two_points { text_fault (codes "streams 2\nwire a.b.c -> b.0\n") ≡ Some (record { kind = BadName; line = 2 }) }
{}

/// What a lane says without a size: its version decides.
pub fn lanes_without_sizes()
    ensures first { (text_of (declarations (lines (codes "streams 1\nwire a.0 -> b.0 async\n")))).body ≡ Wire
        (record { from = codes "a"; output = Num 0; to = codes "b"; input = Num 0; lane = Own 16; keep = false }) ∷ [] }
    ensures second { (text_of (declarations (lines (codes "streams 2\nwire a.0 -> b.i async\n")))).body ≡ Wire
        (record { from = codes "a"; output = Num 0; to = codes "b"; input = Name (codes "i"); lane = Inherited; keep = false }) ∷ [] }
    ensures keeps { (text_of (declarations (lines (codes "streams 2\nwire a.0 -> b.0 async keep\n")))).body ≡ Wire
        (record { from = codes "a"; output = Num 0; to = codes "b"; input = Num 0; lane = Inherited; keep = true }) ∷ [] }
    ensures keeps_so_many { (text_of (declarations (lines (codes "streams 2\nwire a.0 -> b.0 async 4 keep\n")))).body ≡ Wire
        (record { from = codes "a"; output = Num 0; to = codes "b"; input = Num 0; lane = Own 4; keep = true }) ∷ [] }
    ensures keeps_twice { text_fault (codes "streams 2\nwire a.0 -> b.0 async keep keep\n") ≡ Some (record { kind = BadLine; line = 2 }) }
    ensures keeps_in_first { text_fault (codes "streams 1\nwire a.0 -> b.0 async 4 keep\n") ≡ Some (record { kind = BadLine; line = 2 }) }
    ensures instance { (text_of (declarations (lines (codes "streams 2\nuse a m decider stop\n")))).body ≡ Instance
        (record { name = codes "a"; of = codes "m"; attrs = record { size = None; decider = Some Stop } }) ∷ [] }
{}

/// Printing migrates: a text of version 1 is written as one of version 2, with its nodes and wires in the order in which they stand.
pub fn printing_migrates()
    ensures first { canonical (text_of (declarations (lines (codes "streams 1\nwire  a.00 -> b.0 async\nstage a map num decider stop\n")))) ≡
        codes "streams 2\nwire a.0 -> b.0 async 16\nstage a map num\n" }
    ensures second { canonical
        (text_of (declarations (lines (codes "streams 2\nmodule m\nstage a map num decider stop\nout o = a.007\nend\ndefault async 4\n")))) ≡
        codes "streams 2\ndefault async 4\nmodule m\nout o = a.7\nstage a map num decider stop\nend\n" }
{}
