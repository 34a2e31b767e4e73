ghost use Rattle.std.specs.Prelude.{◌≡◌, ◌+◌, ◌<◌, ◌≤◌, ◌^◌, ◌∷◌, [], ◌++◌, OnOk, OnErr, Some, None, true, false, length, vec_len, if◌then◌else◌};
ghost use Rattle.port_core.specs.Picks.{next_move, second_move, MayNote, IsMove, logged};

use elem_core::why::NoMemory;
use std::alloc::Global;
use std::marker::Model;

/// What the next move of a stage is to be.
#[derive(Clone, Copy)]
pub enum Next {
    /// Whatever the stage chooses.
    Free,
    /// This one.
    Move(u32),
    /// None: all moves that the stage follows were made.
    UsedUp,
}

// Choice: docs/DECISIONS.md#log-is-the-plan
/// The picks of a stage, oldest first: those that it chose, or those of a list that it follows. A handler that may note a move
/// makes room before it does anything else, so that want of memory finds the stage and its log as they were.
#[derive(Drop)]
pub struct PickLog {
    // The moves that were noted; where it follows, all the moves that it is to make.
    moves: Vec<u32>,
    // Where it follows, how many of them were noted.
    made: Option<usize>,
    stuck: bool,
}

impl Model for PickLog {
    ghost use Rattle.std.specs.Prelude.{◌-◌, length, vec_len, vec_capacity};
    ghost use Rattle.port_core.specs.Picks.{Picks};
    ghost use Rattle.port_core.specs.PickPlaces.{made_of, room_of, left_of, IsKeptLog};

    ghost Value = { Picks };

    ghost view = { λ p. record {
      moves = made_of p.made p.moves.items;
      room = room_of p.made (length p.moves.items) (vec_capacity p.moves - vec_len p.moves);
      left = left_of p.made p.moves.items;
      stuck = p.stuck;
    } };

    ghost invariant = { λ p. IsKeptLog p.made (vec_len p.moves) p.stuck };
}

impl PickLog {
    /// An empty log, free to note any move. It takes no memory.
    pub fn new(alloc: Global) -> PickLog
        ensures moves { result.moves ≡ [] }
        ensures left { result.left ≡ None }
        ensures stuck { result.stuck ≡ false }
    {
        PickLog {
            moves: Vec::new(alloc),
            made: None,
            stuck: false,
        }
    }

    /// An empty log that follows these moves. It takes no memory.
    pub fn follow(moves: Vec<u32>) -> PickLog
        requires { vec_len moves < 2 ^ 32 }
        ensures moves { result.moves ≡ [] }
        ensures left { result.left ≡ Some moves.items }
        ensures stuck { result.stuck ≡ false }
    {
        PickLog {
            moves,
            made: Some(0),
            stuck: false,
        }
    }

    /// What the next move is to be. It takes no memory.
    pub fn next(&self) -> Next
        ensures { result ≡ next_move self.now.left }
    {
        match self.made {
            None => Next::Free,
            Some(made) if made < self.moves.len() => Next::Move(self.moves[made]),
            Some(_) => Next::UsedUp,
        }
    }

    /// The move behind the next one, where there is one. It takes no memory.
    #[tactic(auto, using(crate::proofs::Noting::second_is, crate::proofs::Noting::second_lacks))]
    pub fn second(&self) -> Option<u32>
        ensures { result ≡ second_move self.now.left }
    {
        match self.made {
            Some(made) if self.moves.len() - made > 1 => Some(self.moves[made + 1]),
            _ => None,
        }
    }

    /// Makes room for two more moves, which is the most that one handler call notes. On a refusal the log is as before. Where it
    /// follows moves, it has room and takes no memory.
    pub fn reserve(&mut self) -> Result<(), NoMemory>
        ensures moves { self.new.moves ≡ self.old.moves }
        ensures left { self.new.left ≡ self.old.left }
        ensures stuck { self.new.stuck ≡ self.old.stuck }
        ensures room { OnOk result (2 ≤ self.new.room) }
        ensures err { OnErr result (self.new ≡ self.old) }
    {
        match self.made {
            None => self.moves.reserve(2),
            Some(_) => Ok(()),
        }
    }

    /// Appends a move, for which room was made; where the log follows moves, the next of them, which has its place. It takes no memory.
    pub fn note(&mut self, m: u32)
        requires room { self.old.left ≡ None → 0 < self.old.room }
        requires next { MayNote m self.old.left }
        ensures { self.new ≡ logged m self.old }
    {
        match self.made {
            None => self.moves.push_reserved(m),
            Some(made) => self.made = Some(made + 1),
        }
    }

    /// Marks that the next move cannot be made. It takes no memory.
    pub fn misfit(&mut self)
        requires { IsMove (next_move self.old.left) }
        ensures { self.new ≡ record self.old { stuck = true } }
    {
        self.stuck = true;
    }

    /// Whether it was marked so.
    pub fn is_stuck(&self) -> bool
        ensures { result ≡ self.now.stuck }
    {
        self.stuck
    }

    /// The place of the move that cannot be made, where it was marked so: the number of moves that were noted. It takes no memory.
    pub fn misfit_at(&self) -> Option<u32>
        ensures { result ≡ (if self.now.stuck then Some (length self.now.moves) else None) }
    {
        match self.made {
            Some(made) if self.stuck => Some(made as u32),
            _ => None,
        }
    }

    /// The moves that were noted, oldest first. It takes no memory.
    pub fn into_moves(self) -> Vec<u32>
        ensures { result.items ≡ self.moves }
    {
        let PickLog { moves, made, stuck } = self;
        let _ = stuck;
        let mut moves = moves;
        if let Some(made) = made {
            moves.truncate(made);
        }
        moves
    }
}
