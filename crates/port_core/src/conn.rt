ghost use Rattle.std.specs.Prelude.{◌≡◌, ◌↔◌, IsTrue, true, false, not, IsSome, pos};
ghost use Rattle.elem_core.specs.Tree.{Tree, num};
ghost use Rattle.port_core.specs.Connection.{unasked, pushed};
ghost use Rattle.port_core.specs.PortRules as rule;
ghost use Rattle.port_core.specs.PortRules.{Allowed, Rule, after_move};
ghost use Rattle.port_core.specs.Word.{word_of};
ghost use Rattle.port_core.specs.Decoding.{can_pull, can_push, is_at_rest, is_open, event_of, arrived_by, delivered, Decodes};

use elem_core::elem::{Elem, Form};
use elem_core::why::{Cause, Why};
use std::marker::Model;
use std::mem;

/// What a connection that was queued has for one of its ends. The events are those of the Akka Streams 2.6 interpreter, but
/// that an element with a close behind it is an event of its own.
#[derive(Clone, Copy, PartialEq, Eq)]
pub enum Event {
    /// An element for the input.
    Push,
    /// An element for the input, and the closing of the output behind it: the connection has to be queued again.
    PushThenClose,
    /// A pull for the output.
    Pull,
    /// The input's cancel, for the output.
    Cancel,
    /// The output's completion, for the input.
    Finish,
    /// The output's failure, for the input. The connection has its cause.
    Fail,
    /// Nothing: each end has closed its side.
    Nothing,
}

// The bits of the flag word. Exactly one of the low four is set.
// Nobody pulled.
const IN_READY: u8 = 1;
// The input pulled, and the output does not know it.
const PULLING: u8 = 2;
// An element is on its way to the input.
const PUSHING: u8 = 4;
// The output was pulled.
const OUT_READY: u8 = 8;
// The input's side is closed.
const IN_CLOSED: u8 = 16;
// The output's side is closed.
const OUT_CLOSED: u8 = 32;
// The output failed before either side was closed.
const IN_FAILED: u8 = 64;

// Choice: docs/DECISIONS.md#connection-is-a-record
/// One output joined to one input. Its calls are the lines of the table of port rules, and none takes memory. Rule: Akka
/// Streams 2.6 reference, chapter on custom stream processing; the flag word is own.
#[derive(Drop)]
pub struct Conn {
    word: u8,
    // Whether an element was delivered and not grabbed.
    held: bool,
    // The element that is on its way or was delivered; where there is none, the number 0.
    elem: Elem,
    // The cause of the failure; where there was none, one that nobody reads.
    cause: Cause,
}

impl Model for Conn {
    ghost use Rattle.std.specs.Coded.{codes};
    ghost use Rattle.elem_core.specs.TreeCode.{tree_coded};
    ghost use Rattle.port_core.specs.Connection.{Connection};
    ghost use Rattle.port_core.specs.Word.{connection_of, IsWord};

    ghost Value = { Connection };

    ghost coded = { Prim.hlevel (codes, tree_coded) };

    ghost view = { λ c. connection_of c.word c.held c.elem c.cause };

    ghost invariant = { λ c. IsWord c.word c.held c.elem };
}

// The element that stands where there is none.
fn no_elem() -> Elem
    ensures { result ≡ num (pos 0) }
{
    Elem::of(Form::Num(0))
}

impl Conn {
    /// A connection that nobody pulled.
    pub fn new() -> Conn
        ensures { result ≡ unasked }
    {
        Conn {
            word: IN_READY,
            held: false,
            elem: no_elem(),
            cause: Cause {
                stage: 0,
                nth: 0,
                why: Why::NotANumber,
            },
        }
    }

    /// Whether the input may pull: no pull is outstanding, no delivered element waits to be grabbed, and no side is closed.
    pub fn can_pull(&self) -> bool
        ensures test { result ≡ can_pull self.now }
        ensures table { IsTrue result ↔ Allowed rule.pull self.now }
    {
        self.word == IN_READY && !self.held
    }

    /// Whether the output may push: it was pulled and did not push since, and no side is closed.
    pub fn can_push(&self) -> bool
        ensures test { result ≡ can_push self.now }
        ensures table { (e : Tree) → IsTrue result ↔ Allowed (rule.push e) self.now }
    {
        self.word == OUT_READY
    }

    /// Whether a delivered element was not grabbed.
    pub fn has_elem(&self) -> bool
        ensures { IsTrue result ↔ IsSome self.now.to_grab }
    {
        self.held
    }

    /// The input pulls. The connection has to be queued.
    pub fn pull(&mut self) -> bool
        requires { IsTrue (can_pull self.old) }
        ensures queued { IsTrue result }
        ensures row { Rule rule.pull self.old self.new }
    {
        self.word ^= IN_READY | PULLING;
        true
    }

    /// The output gives an element. The connection has to be queued.
    pub fn push(&mut self, e: Elem) -> bool
        requires { IsTrue (can_push self.old) }
        ensures queued { IsTrue result }
        ensures row { Rule (rule.push e) self.old self.new }
    {
        self.word ^= OUT_READY | PUSHING;
        // A number stands there, which owns nothing: so no push has to look for what it would drop.
        mem::forget(mem::replace(&mut self.elem, e));
        true
    }

    /// The input pulls, and that comes to the output at once: what `pull` and the delivery of its event do. Nothing has to be queued.
    #[inline(always)]
    pub fn ask(&mut self)
        requires { IsTrue (can_pull self.old) }
        ensures pulled { Allowed rule.pull self.old }
        ensures after { self.new ≡ after_move rule.on_pull (after_move rule.pull self.old) }
    {
        self.word = OUT_READY;
    }

    /// The output gives an element that goes past the connection to the input at once: what `push`, the delivery of its event and `grab`
    /// do. Nothing has to be queued.
    #[inline(always)]
    pub fn pass(&mut self)
        requires { IsTrue (can_push self.old) }
        ensures pushed { (e : Tree) → Allowed (rule.push e) self.old }
        ensures after { (e : Tree) → self.new ≡ after_move (rule.grab e) (after_move (rule.on_push e) (after_move (rule.push e) self.old)) }
    {
        self.word = IN_READY;
    }

    /// The element that was delivered. It is there once.
    pub fn grab(&mut self) -> Elem
        requires { IsSome self.old.to_grab }
        ensures { Rule (rule.grab result) self.old self.new }
    {
        self.held = false;
        mem::replace(&mut self.elem, no_elem())
    }

    // Choice: docs/DECISIONS.md#closings-keep-the-element
    /// The output completes. The answer says whether the connection has to be queued. An element that is on its way stays,
    /// and comes first.
    pub fn complete(&mut self) -> bool
        ensures queued { result ≡ is_at_rest self.old }
        ensures row { Rule rule.complete self.old self.new }
    {
        let queued = self.is_at_rest();
        self.word |= OUT_CLOSED;
        queued
    }

    /// The output fails with a cause, which is kept where no side was closed. The answer says whether the connection has to
    /// be queued. An element that is on its way stays, and comes first.
    pub fn fail(&mut self, cause: Cause) -> bool
        ensures queued { result ≡ is_at_rest self.old }
        ensures row { Rule (rule.fail cause) self.old self.new }
    {
        if self.is_closed() {
            self.word |= OUT_CLOSED;
            return false;
        }
        let queued = self.is_at_rest();
        self.word |= OUT_CLOSED | IN_FAILED;
        self.cause = cause;
        queued
    }

    /// The input cancels. The answer says whether the connection has to be queued.
    pub fn cancel(&mut self) -> bool
        ensures queued { result ≡ is_at_rest self.old }
        ensures row { Rule rule.cancel self.old self.new }
    {
        let queued = self.is_at_rest();
        self.word |= IN_CLOSED;
        queued
    }

    // Choice: docs/DECISIONS.md#decode-asks-nothing
    /// The event of a connection that was queued; the connection is then as after the event's delivery. The order of the
    /// rules is own: an element or a pull where no side is closed; the input's cancel; the output's closing, an element that
    /// is on its way before it; nothing where both sides are closed.
    pub fn decode(&mut self) -> Event
        ensures event { result ≡ event_of self.old }
        ensures after { self.new ≡ delivered self.old }
        ensures table { Decodes result self.old self.new }
    {
        match self.word {
            PUSHING => {
                self.arrive();
                Event::Push
            }
            PULLING => {
                self.word ^= PULLING | OUT_READY;
                Event::Pull
            }
            _ => self.decode_closing(),
        }
    }

    /// The cause with which the output failed, where it failed before either side was closed.
    pub fn cause(&self) -> Option<Cause>
        ensures { result ≡ self.now.cause }
    {
        if self.word & IN_FAILED == 0 {
            None
        } else {
            Some(self.cause)
        }
    }

    // Choice: docs/DECISIONS.md#word-is-told
    /// The flag word: 1 where nobody pulled, 2 where the input pulled, 4 where an element is on its way, 8 where the output was
    /// pulled; and 16 for a closed input, 32 for a closed output, 64 where the output failed before either side was closed.
    pub fn word(&self) -> u8
        ensures { result ≡ word_of self.now }
    {
        self.word
    }

    /// Whether a side is closed.
    pub fn is_closed(&self) -> bool
        ensures { result ≡ not (is_open self.now) }
    {
        self.word & (IN_CLOSED | OUT_CLOSED) != 0
    }

    fn is_at_rest(&self) -> bool
        ensures { result ≡ is_at_rest self.now }
    {
        self.word & (IN_CLOSED | OUT_CLOSED | PULLING | PUSHING) == 0
    }

    // The event where no element and no pull is on its way between open sides.
    #[inline(never)]
    fn decode_closing(&mut self) -> Event
        requires { IsTrue (is_open self.old) → IsTrue (is_at_rest self.old) }
        ensures event { result ≡ event_of self.old }
        ensures after { self.new ≡ delivered self.old }
        ensures table { Decodes result self.old self.new }
    {
        match self.word & (IN_CLOSED | OUT_CLOSED) {
            IN_CLOSED => {
                self.word |= OUT_CLOSED;
                Event::Cancel
            }
            OUT_CLOSED => self.decode_ending(),
            _ => Event::Nothing,
        }
    }

    // The event where the output's side alone is closed.
    fn decode_ending(&mut self) -> Event
        requires { (self.old.in_closed ≡ false) × (self.old.out_closed ≡ true) }
        ensures event { result ≡ event_of self.old }
        ensures after { self.new ≡ delivered self.old }
        ensures table { Decodes result self.old self.new }
    {
        if self.word & PUSHING != 0 {
            self.arrive();
            return Event::PushThenClose;
        }
        self.word |= IN_CLOSED;
        if self.word & IN_FAILED == 0 {
            return Event::Finish;
        }
        Event::Fail
    }

    // The element that is on its way comes.
    fn arrive(&mut self)
        requires { (e : Tree) × (self.old.step ≡ pushed e) }
        ensures { self.new ≡ arrived_by self.old self.old.step }
    {
        self.word ^= PUSHING | IN_READY;
        self.held = true;
    }
}
