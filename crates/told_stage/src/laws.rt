// Laws: each function has no body, and its contract is the law.
ghost use Rattle.std.specs.Prelude.{◌≡◌, ℕ, true, List, [], ◌∷◌};
ghost use Rattle.elem_core.specs.Sort.{Sort};
ghost use Rattle.elem_core.specs.Tree.{Tree};
ghost use Rattle.elem_core.specs.Typed.{is_of};
ghost use Rattle.stream_model.specs.Linear.{Book, told_book};
ghost use Rattle.plug_logic.specs.Gives.{Gives, listed};
ghost use Rattle.graph_stage.specs.Lifted.{not_begun};
ghost use Rattle.graph_stage.specs.Told.{GivesTyped, HandedAs, all_of, list_of, typed_gives};
ghost use Rattle.told_stage.specs.Lifts.{TurnsInto};

/// The list that a lifted plug tells is of the type of its output, whatever comes (`typed`); and of elements of its input's type it is the
/// plug's (`reply`, `closing`).
pub fn a_lifted_plug_gives_what_the_plug_gives()
    ensures typed { (from to : Sort) (p : Gives) → TurnsInto from to p → GivesTyped (typed_gives from p) to }
    ensures reply { (from : Sort) (p : Gives) (took : List Tree) (t : Tree) → all_of from took ≡ true → is_of from t ≡ true
        → (typed_gives from p).reply took t ≡ p.reply took t }
    ensures closing { (from : Sort) (p : Gives) (took : List Tree) → all_of from took ≡ true → (typed_gives from p).closing took ≡ p.closing took }
{}

/// A lifted plug meets what is asked of a custom stage that is handed in, where a book has of its name what it tells at first.
pub fn a_lifted_plug_can_be_handed_in()
    ensures { (b : Book) (name : List ℕ) (from to : Sort) (p : Gives) → TurnsInto from to p → listed (told_book b) name ≡ typed_gives from p
        → HandedAs (b.tells name) b name (from ∷ []) (to ∷ []) (list_of (typed_gives from p) not_begun) }
{}
