// Laws and worked values of pictures: each function has no body, and its contract is the law.
// Choice: docs/DECISIONS.md#pictures-apart
ghost use Rattle.std.specs.Prelude.{◌≡◌, ℕ, List, [], ◌∷◌, Bool, true, pos, slice_get, Some};
ghost use Rattle.stream_model.specs.declared.outcome.WireCount.{WireCount};
ghost use Rattle.stream_model.specs.Composed.{composed};
ghost use Rattle.stream_model.specs.Graph.{Graph, Node, Edge};
ghost use Rattle.stream_model.specs.Node.{World};
ghost use Rattle.stream_model.specs.Outlook.{Outlook};
ghost use Rattle.stream_model.specs.Lawful.{IsLawful};
ghost use Rattle.stream_model.specs.Listed.{AllTell};
ghost use Rattle.stream_model.specs.OneWay.{is_sink};
ghost use Rattle.stream_model.specs.Rests.{Rests, SinksMatch};
ghost use Rattle.stream_model.specs.Shape.{IsPolytree, IsWired, need, count_needed};
ghost use Rattle.stream_model.specs.Fits.{Fits};
ghost use Rattle.stream_model.specs.Samples.{numbers, ending};
ghost use Rattle.stream_model.specs.Stalled.{dropping, no_files, counts};
ghost use Rattle.stream_model.specs.FalseStalls.{in_turns, sorted, by_parity, nothing_sent, one_sent, doubling, four_moves, one_given, merged, one_move, one_merged};

/// Where two ways meet at a zip and one drops an element, the run stalls: no node has anything to do, and the sink has
/// not ended. Its five wires take up to 46 units for all that may pass, and 26 for what has passed.
pub fn a_drop_may_stall()
    ensures lawful { IsLawful dropping no_files counts (composed dropping no_files) }
    ensures rests { Rests dropping no_files counts (composed dropping no_files) }
    ensures need { need dropping (composed dropping no_files) ≡ 46 }
    ensures count { count_needed dropping counts ≡ 26 }
{}

/// Four pictures that are lawful, with the sink unended and nothing written, though all that may pass ends. None of them rests: an
/// interleave may take the element whose turn it is, a merge_sorted and a merge may ask an input of which nothing waits, and a partition
/// that holds nothing may ask for more.
pub fn these_pictures_do_not_rest()
    ensures turned_lawful { IsLawful in_turns no_files nothing_sent (composed in_turns no_files) }
    ensures turned_all { composed in_turns no_files 4 ≡ ending (numbers (1 ∷ 1 ∷ 2 ∷ 2 ∷ 3 ∷ 3 ∷ [])) }
    ensures in_turns { Rests in_turns no_files nothing_sent (composed in_turns no_files) → ⊥ }
    ensures sorted_lawful { IsLawful sorted no_files nothing_sent (composed sorted no_files) }
    ensures sorted_all { composed sorted no_files 4 ≡ ending (numbers (1 ∷ 1 ∷ 2 ∷ 2 ∷ 3 ∷ 3 ∷ [])) }
    ensures sorted { Rests sorted no_files nothing_sent (composed sorted no_files) → ⊥ }
    ensures parted_lawful { IsLawful by_parity no_files one_sent (composed by_parity no_files) }
    ensures by_parity { Rests by_parity no_files one_sent (composed by_parity no_files) → ⊥ }
    ensures merged_fits { Fits merged one_move }
    ensures merged_lawful { IsLawful merged one_move one_merged (composed merged one_move) }
    ensures merged { Rests merged one_move one_merged (composed merged one_move) → ⊥ }
{}

/// Merged substreams have a move for each element that they gave: four moves that fit are not lawful where one element was given.
pub fn moves_are_not_spare()
    ensures fit { Fits doubling four_moves }
    ensures unlawful { IsLawful doubling four_moves one_given (composed doubling four_moves) → ⊥ }
{}

/// In a polytree whose custom stages all tell lists a picture that rests has every wire shut, so every sink has ended.
pub fn polytrees_end()
    ensures { (g : Graph) (w : World) (counts : List WireCount) (outlook : ℕ → Outlook) → IsWired g counts → Rests g w counts outlook → AllTell g w.book
        → IsPolytree g
        → (ended : ℕ → Bool) → SinksMatch g w counts outlook ended
        → (i : ℕ) (v : Edge) (n : Node) → slice_get g.wires i ≡ Some v → slice_get g.nodes v.to ≡ Some n → is_sink n.kind ≡ true → ended v.to ≡ true }
{}
