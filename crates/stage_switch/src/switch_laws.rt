// Laws of the switches of a blueprint: each function has no body, and its contract is the law.
ghost use Rattle.std.specs.Prelude.{◌≡◌, ◌≤◌, ℕ, List, Option, Some, None, length, slice_get, true};
ghost use Rattle.stage_switch.specs.Public.{SeatState, IsSeatOf};
ghost use Rattle.stream_model.specs.declared.kind.Kind.{Kind};
ghost use Rattle.stream_model.specs.Graph.{Graph, Node};
ghost use Rattle.stream_model.specs.Node.{World, head_of};
ghost use Rattle.stream_model.specs.Fits.{CanTrip, Fits, moves_fit, inputs};
ghost use Rattle.stream_model.specs.declared.kind.Kind.TheVariants as kind;
ghost use Rattle.elem_core.specs.Items.{elements};
ghost use Rattle.elem_core.specs.declared.item.Item.{Item};
ghost use Rattle.port_core.specs.View.{View};
ghost use Rattle.stage_switch.specs.States.{Valve, Trip};
ghost use Rattle.stage_switch.specs.Handling.{ValveAs, TripAs, trip_kind};
ghost use Rattle.stage_switch.specs.Settling.{SeatTold, AllSettled, OneOrderShown, kinds_of};

/// Where the laws of the nodes tell what each seat knows and gave, and the seats of each switch were settled, over however
/// many islands: all valves of a switch with moves show one order, that of a trip of the switch which took its element. So,
/// where each node's moves fit and no trip took more elements than came, all moves of the blueprint fit. A trip that took so
/// many elements can trip where more may come.
pub fn switches_show_one_order()
    ensures shown { (g : Graph) (w : World) (took : ℕ → ℕ) (seat : ℕ → Option SeatState)
        → ((node : ℕ) (n : Node) → slice_get g.nodes node ≡ Some n → (s : SeatState) → seat node ≡ Some s → SeatTold n.kind (w.moves node) (took node) s)
        → AllSettled (kinds_of g) seat → OneOrderShown g w took }
    ensures fits { (g : Graph) (w : World) (took : ℕ → ℕ) → OneOrderShown g w took
        → ((node : ℕ) (n : Node) → slice_get g.nodes node ≡ Some n → moves_fit g w node n.kind (inputs g w node n) ≡ true)
        → ((node : ℕ) (n : Node) → slice_get g.nodes node ≡ Some n → took node ≤ length (head_of (inputs g w node n)).list) → Fits g w }
    ensures more { (name : List ℕ) (order : ℕ) (k : Kind) (few many : ℕ) → few ≤ many → CanTrip name order k few → CanTrip name order k many }
{}

/// The law of a valve that makes its own choices, and that of a trip, tell of its seat what is asked of a node of its kind; that of each
/// tells that it is of the switch that the node was handed.
pub fn node_laws_tell_of_seats()
    ensures valve { (name : List ℕ) (first now : Valve) (v : View) (took gave : List (List Item)) → (law : ValveAs first now v took gave)
        → IsSeatOf first.switch now.seat × (first.left ≡ None → (count : ℕ) → SeatTold (kind.Valve name) now.moves count now.seat) }
    ensures trip { (name moves : List ℕ) (first now : Trip) (v : View) (took gave : List (List Item)) → (law : TripAs first now v took gave)
        → IsSeatOf first.switch now.seat × SeatTold (trip_kind first.order name first.count) moves (elements law.took_list) now.seat }
{}
