// Laws of a run: each function has no body, and its contract is the law. They speak of what a run leaves of its blueprint's
// nodes and wires, at any moment from its start to its end. The plugs of the run give what a book lists of their names: where a law
// speaks of a world, what the book of that world lists, and else what `B` lists.
ghost use Rattle.std.specs.Prelude.{◌≡◌, ◌≢◌, ◌<◌, ◌≤◌, ℕ, false, List, [], map, length, None, Some, slice_get};
ghost use Rattle.port_core.specs.Cell.{WireState};
ghost use Rattle.elem_core.specs.Items.{elements};
ghost use Rattle.stream_model.specs.Blame.{GivenLeads};
ghost use Rattle.stream_model.specs.Composed.{next, composed, sink_outlook, IsRanked};
ghost use Rattle.stream_model.specs.Graph as graph;
ghost use Rattle.stream_model.specs.Graph.{Graph, Edge};
ghost use Rattle.stream_model.specs.Listed.{tells_none};
ghost use Rattle.stream_model.specs.Node.{World};
ghost use Rattle.stream_model.specs.Outlook.{Outlook};
ghost use Rattle.stream_model.specs.Sources.{whole_lines};
ghost use Rattle.stream_model.specs.declared.kind.Kind.TheVariants as kind;
ghost use Rattle.stream_model.specs.declared.outcome.EndState.TheVariants.{Unended};
ghost use Rattle.stream_model.specs.Joined.{IsJoined};
ghost use Rattle.fused_net.specs.Laws.{Settled};
ghost use Rattle.fused_net.specs.Net.{Net};
ghost use Rattle.nodes.specs.Nodes.{node_port_state, node_law, node_asking, node_moves};
ghost use Rattle.nodes.specs.Ignoring.{Ignorer};
ghost use Rattle.nodes.specs.Kinds.{IsFileSink};
ghost use Rattle.nodes.specs.Sink.{Sink, sink_late};
ghost use Rattle.nodes.specs.Source.{Lines};
ghost use Rattle.nodes.specs.declared.node.IslandNode.{IslandNode};
ghost use Rattle.nodes.specs.declared.node.IslandNode.TheVariants.{Custom};
ghost use Rattle.graph_stage.specs.Passed.{ItemsTyped};
ghost use Rattle.graph_stage.specs.State.{CustomState};
ghost use Rattle.run_laws.specs.Account.{Account, AllMade, took, IsStill};
ghost use Rattle.run_laws.specs.Items.{AgreesWith, IsToldList};
ghost use Rattle.run_laws.specs.Pictures.{picture_counts};
ghost use Rattle.run_laws.specs.Ports.{wire_count};
ghost use Rattle.run_laws.specs.Seats.{Seats, Covers, LanesKeep, LanesRest, joined_account, account_of};
ghost use Rattle.run_laws.specs.Made.{FirstOf, Materializes};
ghost use Rattle.run_laws.specs.Runs.{IsRun};
ghost use Rattle.run_laws.specs.Reads.{IsSourceAt, SentLines, GivesTexts};
ghost use Rattle.run_laws.specs.Sinks.{TookList, SinkTells, SinkWrote, SentTo, IsSinkAt, IgnoreTells, IsIgnorerAt};
ghost use Rattle.run_laws.specs.Telling.{TellsFiles, TellsPicks, WorldTells, ServesPlans};

use graph_stage::handlers::Handlers;
use plug_logic::book::PlugBook;
use plug_logic::logic::Logic;
use stream_io::outside::{Drain, Source};

/// An island that was made of a blueprint, between two events, leaves a run of it (`run`); and no event is left on any wire
/// where none is left in the island (`still`). Its picture is that of the island's wires, in their order (`counts`).
pub fn an_island_leaves_a_run<S: Source, D: Drain, L: Logic, H: Handlers, B: PlugBook>()
    ensures run { (g : Graph) (net : Net (IslandNode S D L H B)) → IsJoined g → Settled node_port_state
        (node_law S.state D.state B.lists) node_asking node_moves net → Materializes S.state g net.firsts net.ends
        → IsRun S.state D.state B.lists g (account_of net) }
    ensures still { (g : Graph) (net : Net (IslandNode S D L H B)) → Settled node_port_state (node_law S.state D.state B.lists) node_asking node_moves net
        → Materializes S.state g net.firsts net.ends → net.queue ≡ [] → IsStill g (account_of net) }
    ensures counts { (g : Graph) (net : Net (IslandNode S D L H B)) → Settled node_port_state (node_law S.state D.state B.lists) node_asking node_moves net
        → Materializes S.state g net.firsts net.ends → picture_counts (account_of net) g ≡ map (λ (c : WireState). wire_count None c 0) net.wires }
{}

/// Islands in which the nodes and wires of a blueprint have their places, between two events, leave a run of it where its nodes
/// were handed in as it names them and of each lane that is kept which its two ends keep (`run`); and no event is left on any wire
/// where none is left in any island and each lane rests (`still`). An island without lanes is the case above.
pub fn islands_leave_a_run<S: Source, D: Drain, L: Logic, H: Handlers, B: PlugBook>()
    ensures run { (g : Graph) (nets : ℕ → Net (IslandNode S D L H B)) (seats : Seats) (asked : ℕ → ℕ) → IsJoined g → Covers g nets seats
        → ((b : ℕ) → Settled node_port_state (node_law S.state D.state B.lists) node_asking node_moves (nets b)) → LanesKeep g nets seats asked
        → AllMade (FirstOf S.state g.chains) g (joined_account nets seats asked) → IsRun S.state D.state B.lists g (joined_account nets seats asked) }
    ensures still { (g : Graph) (nets : ℕ → Net (IslandNode S D L H B)) (seats : Seats) (asked : ℕ → ℕ) → Covers g nets seats
        → ((b : ℕ) → Settled node_port_state (node_law S.state D.state B.lists) node_asking node_moves (nets b)) → ((b : ℕ) → (nets b).queue ≡ [])
        → LanesRest g nets seats asked
        → IsStill g (joined_account nets seats asked) }
{}

/// What was sent on each wire, its elements and its end, agrees with the composed outlook of that wire, over the input files
/// as the world tells them.
pub fn every_wire_agrees<S: Source, D: Drain, L: Logic, H: Handlers, B: PlugBook>()
    ensures { (g : Graph) (w : World) (rank : ℕ → ℕ) (a : Account (IslandNode S D L H B)) → IsRun S.state D.state w.book g a → WorldTells S.state g w a
        → IsRanked g rank
        → (i : ℕ) → i < length g.wires → AgreesWith (composed g w i) (a.near i).wire.sent }
{}

/// What a custom stage that tells no list failed with on its wires was of its own, or came to it.
pub fn customs_blame_themselves<S: Source, D: Drain, L: Logic, H: Handlers, B: PlugBook>()
    ensures { (g : Graph) (w : World) (rank : ℕ → ℕ) (a : Account (IslandNode S D L H B)) → IsRun S.state D.state w.book g a → WorldTells S.state g w a
        → IsRanked g rank → GivenLeads g w }
{}

/// A node of the kind of a sink with a file is one (`there`). What a sink of lines took, and how it stands, agrees with its
/// outlook (`took`); and where the file of any of them was empty at first and tells what it holds, so do the bytes of its file
/// (`tells`): where it ended they are exactly the text of all that its outlook gives, where it failed the text of a list that
/// the outlook lets fail so, and else a first part of that text. A node of the kind of a sink that keeps nothing is one
/// (`ignorer`), and how it stands and how many elements were sent to it agree with its outlook (`ignores`).
pub fn every_sink_agrees<S: Source, D: Drain, L: Logic, H: Handlers, B: PlugBook>()
    ensures there { (g : Graph) (a : Account (IslandNode S D L H B)) → IsRun S.state D.state B.lists g a
        → (k : ℕ) (n : graph.Node) → slice_get g.nodes k ≡ Some n → IsFileSink n.kind → (first : Sink D) × ((now : Sink D) × IsSinkAt a k first now) }
    ensures took { (g : Graph) (w : World) (rank : ℕ → ℕ) (a : Account (IslandNode S D L H B)) → IsRun S.state D.state w.book g a → WorldTells S.state g w a
        → IsRanked g rank
        → (k : ℕ) (n : graph.Node) (name : List ℕ) (first now : Sink D) → slice_get g.nodes k ≡ Some n → n.kind ≡ kind.ToLines name → IsSinkAt a k first now
        → TookList (sink_outlook g w k n) now.end (took g a k n) }
    ensures tells { (g : Graph) (w : World) (rank : ℕ → ℕ) (a : Account (IslandNode S D L H B)) → IsRun S.state D.state w.book g a → WorldTells S.state g w a
        → IsRanked g rank
        → (k : ℕ) (n : graph.Node) (first now : Sink D) (written : List ℕ) → slice_get g.nodes k ≡ Some n → IsSinkAt a k first now
        → (D.state first.drain).holds ≡ Some [] → (D.state now.drain).holds ≡ Some written → SinkTells (sink_outlook g w k n) now.end written }
    ensures ignorer { (g : Graph) (a : Account (IslandNode S D L H B)) → IsRun S.state D.state B.lists g a
        → (k : ℕ) (n : graph.Node) → slice_get g.nodes k ≡ Some n → n.kind ≡ kind.Ignore → (first : Ignorer) × ((now : Ignorer) × IsIgnorerAt a k first now) }
    ensures ignores { (g : Graph) (w : World) (rank : ℕ → ℕ) (a : Account (IslandNode S D L H B)) → IsRun S.state D.state w.book g a → WorldTells S.state g w a
        → IsRanked g rank
        → (k : ℕ) (n : graph.Node) (first now : Ignorer) (u : ℕ) (v : Edge) → slice_get g.nodes k ≡ Some n → IsIgnorerAt a k first now
        → slice_get g.wires u ≡ Some v → v.to ≡ k
        → IgnoreTells (sink_outlook g w k n) now.end (elements (a.far u).wire.sent) }
{}

/// The same by a world that has, of each node, the moves that it made, or else all of those that it follows, where they fit and no failure may come
/// on its wires: what was sent on each wire agrees with the composed outlook of that wire (`wires`), and so with those of sinks do what they took
/// and how they stand (`tells`, `ignores`).
pub fn every_plan_is_served<S: Source, D: Drain, L: Logic, H: Handlers, B: PlugBook>()
    ensures wires { (g : Graph) (w : World) (rank : ℕ → ℕ) (a : Account (IslandNode S D L H B)) → IsRun S.state D.state w.book g a → TellsFiles S.state g w a
        → ServesPlans g w a → IsRanked g rank
        → (i : ℕ) → i < length g.wires → AgreesWith (composed g w i) (a.near i).wire.sent }
    ensures tells { (g : Graph) (w : World) (rank : ℕ → ℕ) (a : Account (IslandNode S D L H B)) → IsRun S.state D.state w.book g a → TellsFiles S.state g w a
        → ServesPlans g w a → IsRanked g rank
        → (k : ℕ) (n : graph.Node) (first now : Sink D) (written : List ℕ) → slice_get g.nodes k ≡ Some n → IsSinkAt a k first now
        → (D.state first.drain).holds ≡ Some [] → (D.state now.drain).holds ≡ Some written → SinkTells (sink_outlook g w k n) now.end written }
    ensures ignores { (g : Graph) (w : World) (rank : ℕ → ℕ) (a : Account (IslandNode S D L H B)) → IsRun S.state D.state w.book g a → TellsFiles S.state g w a
        → ServesPlans g w a → IsRanked g rank
        → (k : ℕ) (n : graph.Node) (first now : Ignorer) (u : ℕ) (v : Edge) → slice_get g.nodes k ≡ Some n → IsIgnorerAt a k first now
        → slice_get g.wires u ≡ Some v → v.to ≡ k
        → IgnoreTells (sink_outlook g w k n) now.end (elements (a.far u).wire.sent) }
{}

/// A sink with a file wrote what its outlook lets it write and as many whole lines as it counts, also where its drain does not
/// tell what it holds. So it is by every world with the book of the run's plugs.
pub fn every_sink_writes<S: Source, D: Drain, L: Logic, H: Handlers, B: PlugBook>()
    ensures { (g : Graph) (a : Account (IslandNode S D L H B)) → IsRun S.state D.state B.lists g a
        → (k : ℕ) (n : graph.Node) (first now : Sink D) → slice_get g.nodes k ≡ Some n → IsSinkAt a k first now
        → SinkWrote S.state D.state B.lists g a k n first now }
{}

/// A sink has written as many whole lines as it counts, where its file was empty at first (`lines`). As many elements were
/// sent on the wire of a sink of lines where its input's end came, and else no more than it may put off and one more (`sent`): where
/// it may put one line alone, one more at most while it waits, and exactly one more where a write failed. None more were sent where
/// no event is left, it has not ended and it has put nothing off (`rest`).
pub fn every_sink_counts_its_lines<S: Source, D: Drain, L: Logic, H: Handlers, B: PlugBook>()
    ensures lines { (g : Graph) (a : Account (IslandNode S D L H B)) → IsRun S.state D.state B.lists g a
        → (k : ℕ) (n : graph.Node) (first now : Sink D) (written : List ℕ) → slice_get g.nodes k ≡ Some n → IsSinkAt a k first now
        → (D.state first.drain).holds ≡ Some [] → (D.state now.drain).holds ≡ Some written → whole_lines (length written) written ≡ now.count }
    ensures sent { (g : Graph) (a : Account (IslandNode S D L H B)) → IsRun S.state D.state B.lists g a
        → (k : ℕ) (n : graph.Node) (name : List ℕ) (first now : Sink D) (u : ℕ) (v : Edge) → slice_get g.nodes k ≡ Some n → n.kind ≡ kind.ToLines name
        → IsSinkAt a k first now → slice_get g.wires u ≡ Some v → v.to ≡ k
        → SentTo now.gather.room now.end (elements (a.far u).wire.sent) now.count }
    ensures rest { (g : Graph) (a : Account (IslandNode S D L H B)) → IsRun S.state D.state B.lists g a
        → (k : ℕ) (n : graph.Node) (name : List ℕ) (first now : Sink D) (u : ℕ) (v : Edge) → slice_get g.nodes k ≡ Some n → n.kind ≡ kind.ToLines name
        → IsSinkAt a k first now → slice_get g.wires u ≡ Some v → v.to ≡ k
        → IsStill g a → now.end ≡ Unended → sink_late now ≡ 0 → elements (a.far u).wire.sent ≡ now.count }
{}

/// A node of the kind of a source of lines is one (`there`). The elements that it sent are the first lines of its file, and
/// of the file little more was handed out than those (`reads`).
pub fn every_source_reads_little_ahead<S: Source, D: Drain, L: Logic, H: Handlers, B: PlugBook>()
    ensures there { (g : Graph) (a : Account (IslandNode S D L H B)) → IsRun S.state D.state B.lists g a
        → (k : ℕ) (n : graph.Node) (name : List ℕ) → slice_get g.nodes k ≡ Some n → n.kind ≡ kind.Lines name
        → (first : Lines S) × ((now : Lines S) × IsSourceAt a k first now) }
    ensures reads { (g : Graph) (a : Account (IslandNode S D L H B)) → IsRun S.state D.state B.lists g a
        → (k : ℕ) (n : graph.Node) (first now : Lines S) (u : ℕ) (v : Edge) (bytes : List ℕ) → slice_get g.nodes k ≡ Some n → IsSourceAt a k first now
        → slice_get g.wires u ≡ Some v → v.from ≡ k
        → (S.state first.reader.source).whole ≡ Some bytes
        → SentLines bytes (S.state first.reader.source) (S.state now.reader.source) (a.near u).wire.sent }
{}

/// Whatever a folder tells of its files, a source of lines sent texts (`lines`), a custom stage sent a list and then an end or none
/// (`customs`) of elements of the types of its outputs (`typed`), and what any other node sent on a wire, also a custom stage that tells
/// a list, agrees with what it gives of all outlooks with which what was sent on the wires into it agrees, where the world tells what the
/// stages chose (`others`).
pub fn every_node_gives_of_what_came<S: Source, D: Drain, L: Logic, H: Handlers, B: PlugBook>()
    ensures lines { (g : Graph) (a : Account (IslandNode S D L H B)) → IsRun S.state D.state B.lists g a
        → (u : ℕ) (v : Edge) (n : graph.Node) (name : List ℕ) → slice_get g.wires u ≡ Some v → slice_get g.nodes v.from ≡ Some n → n.kind ≡ kind.Lines name
        → GivesTexts (a.near u).wire.sent }
    ensures customs { (g : Graph) (a : Account (IslandNode S D L H B)) → IsRun S.state D.state B.lists g a
        → (u : ℕ) (v : Edge) (n : graph.Node) (name : List ℕ) → slice_get g.wires u ≡ Some v → slice_get g.nodes v.from ≡ Some n → n.kind ≡ kind.Custom name
        → IsToldList (a.near u).wire.sent }
    ensures typed { (g : Graph) (a : Account (IslandNode S D L H B)) → IsRun S.state D.state B.lists g a
        → (u : ℕ) (v : Edge) (n : graph.Node) (name : List ℕ) → slice_get g.wires u ≡ Some v → slice_get g.nodes v.from ≡ Some n → n.kind ≡ kind.Custom name
        → (first : CustomState) → a.firsts v.from ≡ Some (Custom first) → ItemsTyped (slice_get first.types v.output) (a.near u).wire.sent }
    ensures others { (g : Graph) (w : World) (a : Account (IslandNode S D L H B)) → IsRun S.state D.state w.book g a → TellsPicks w a
        → (sent : ℕ → Outlook) (j : ℕ) (v : Edge) (n : graph.Node) → slice_get g.wires j ≡ Some v → slice_get g.nodes v.from ≡ Some n
        → ((name : List ℕ) → n.kind ≢ kind.Lines name) → tells_none w.book n.kind ≡ false
        → ((u : ℕ) (x : Edge) → slice_get g.wires u ≡ Some x → x.to ≡ v.from → AgreesWith (sent u) (a.near u).wire.sent)
        → AgreesWith (next g w sent j) (a.near j).wire.sent }
{}
