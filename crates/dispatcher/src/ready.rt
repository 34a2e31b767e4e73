// The islands that are ready, and the workers that look for one.
//
// What follows is in no clause: why a worker neither leaves too early, nor sleeps on while something can be done. All steps on the
// words below and on the queue have one order.
//
// Leaving. A worker is busy from before it looks for an island until it has looked in vain; `busy` counts such workers. It stays busy
// from turn to turn. Only busy workers take islands off the list and put islands on it, but for those that are put before the first
// worker begins. So where `busy` is 0, and no worker left for want of memory, the list is empty and stays so: of each worker that has
// begun take the last look in vain, behind which it lowered `busy`, and of these looks the last one. There the list was empty. Whoever
// put an island behind it was busy then and looked in vain later: there is no such look. And a worker that begins later, or comes back
// since it saw an island that another one took, finds none, puts none and lowers `busy` to 0 again. A worker that waits leaves where it
// sees 0, and who lowers `busy` to 0 rings for all. Who leaves for want of memory may leave islands behind: it rings for one, and who
// waits looks at the list before it looks at `busy`.
//
// Rings. Who rings makes something true first (an island is on the list, nobody is busy, nobody watches), and then looks whether any
// worker is asleep. Who sleeps raises `asleep` first, then reads how often the bell was rung, and then looks whether any of these is
// true. Where the one did not see that the other is asleep, the other's look lies behind, and it does not sleep. Where it did, it rings:
// before the other read how often, and then that look lies behind too; or later, and then the other's sleep does not begin or ends, or
// that of another one, which then looks.
//
// Rings that are spared. To wake a worker costs more than a short turn, so that islands with lanes of one place lose by each ring. A
// worker comes by itself to the first island that its turn puts. For each further one it rings, where its turn was long. What a short
// turn puts is left to workers that are awake, and to the one that watches. That one sleeps for a NAP at a time, and takes an island
// where it finds one behind a nap in which the bell was rung, or in which no more laps of turns began than workers are busy: so turns
// are worth a worker more, or no turn begins at all. While the busy ones begin none, since their turns are long, or wait in a read or a
// write, no lap begins. So an island lies on the list for two naps at most while no worker comes to the list and one sleeps. Nor does it
// lie there so long behind each line of a slow source: an island whose last turn lasted longer than a nap is known as slow, and who gives
// it its next turn rings first, where the list has another island.
//
// Turns that are quick. Workers that hand short turns to each other take the islands and what is on the lanes out of each other's caches,
// and use the processors more than one worker that takes all these turns. So turns count as quick, from the first one on and again behind
// each few laps, until some naps in a row show that they are worth a worker more, as above. While they are quick, a worker that looks in
// vain sleeps at once, and a turn is long by more units. Nothing that was said rests on either: it looks once more when it is asleep, who
// rings finds it there, and the one that watches takes an island behind the first nap that was slow.
//
// Turns that may wait. A worker gives an island a turn that may wait for a read only where the list is empty, or another worker comes
// to it: one that it rings for, or one that is busy and does not wait. `waiting` counts those that wait, and the worker counts itself
// first and then compares with `busy`: of two that do so at once one sees the other. Else it puts the turn off, behind the others on the
// list. So what an island sent in a turn that ended before such a read goes on while any worker is left.
//
// Who watches. A worker goes to sleep for longer than a nap only where another one watches. One that ceases to watch, since it takes an
// island, clears `watched` and rings for one as above; and so does each that stops waiting while nobody watches. The one that wakes
// watches, or finds an island and rings for the next.
//
// So a worker waits only while another is busy; and who is busy takes a turn, or looks in vain and is busy no longer. Each sleep ends by
// itself: a ring that were lost would cost a SLEEP, and no turn.
ghost use Rattle.std.specs.Prelude.{◌≡◌, ◌<◌, IfOk, IfSome};

use crossbeam_queue::ArrayQueue;
use crossbeam_utils::Backoff;
use std::alloc::{AllocError, Global};
use std::sync::atomic::{AtomicU64, Ordering};
use std::sync::{Condvar, Wait};
use std::time::Duration;

// Choice: docs/DECISIONS.md#ready-list-is-plain
/// The islands that are ready, of so many, and what the workers tell each other.
#[derive(Drop)]
pub struct ReadyList {
    queue: ArrayQueue<u32, Global>,
    pub(crate) count: u32,
    // How many workers are busy.
    busy: AtomicU64,
    // How many workers sleep, or are about to.
    asleep: AtomicU64,
    // How many workers are at turns that may wait for a read.
    waiting: AtomicU64,
    // 1 where one of those that wait watches.
    watched: AtomicU64,
    // How many laps all workers began.
    laps: AtomicU64,
    // How many whole naps there were.
    naps: AtomicU64,
    // How many slow naps in a row are wanted until turns do not count as quick.
    quick: AtomicU64,
    // It is rung where a worker is wanted, and at the end. What it counts and who sleeps there is all that is used of it.
    bell: Condvar,
}

// How many looks in a row find no island before a worker sleeps.
const LOOKS: u32 = 12;

// How many milliseconds the worker that watches sleeps between two looks.
const NAP: u64 = 3;

// How many turns a worker takes in a lap: in a nap one takes as many where its turns are as long as it takes to wake another.
const LAP: u32 = 128;

// Behind how many laps of all workers turns count as quick again, and behind how many slow naps in a row they do not.
const LAPS: u64 = 32;

const SLOW_NAPS: u64 = 2;

// How many units a turn uses that is worth another worker, and how many where turns are quick.
const LONG: u32 = 32;

const LONG_IF_QUICK: u32 = 128;

// How many milliseconds the others sleep that nobody wakes.
const SLEEP: u64 = 500;

impl ReadyList {
    /// A list of so many islands, none of which is ready, and no worker is busy.
    pub fn new(alloc: Global, count: u32) -> Result<ReadyList, AllocError>
        requires { 0 < count }
        ensures { IfOk result (λ l. l.count ≡ count) }
    {
        Ok(ReadyList {
            queue: ArrayQueue::new(alloc, count as usize)?,
            count,
            busy: AtomicU64::new(0),
            asleep: AtomicU64::new(0),
            waiting: AtomicU64::new(0),
            watched: AtomicU64::new(0),
            laps: AtomicU64::new(0),
            naps: AtomicU64::new(0),
            quick: AtomicU64::new(SLOW_NAPS),
            bell: Condvar::new(),
        })
    }

    /// Takes an island off the list. A worker is busy when it does so.
    pub fn take<R: Wait>(&self, rt: &R) -> Option<u32>
        ensures { IfSome result (λ id. id < self.now.count) }
    {
        let id = self.queue.pop(rt)?;
        if id < self.count { Some(id) } else { None }
    }

    /// Puts an island on the list. One that finds it full is left to the caller's thread.
    pub fn put<R: Wait>(&self, rt: &R, id: u32) {
        let _ = self.queue.push(rt, id);
    }

    /// Wakes a worker, if one sleeps.
    pub fn call_one(&self) {
        if self.asleep.load(Ordering::SeqCst) > 0 {
            self.bell.notify_one();
        }
    }

    // Choice: docs/DECISIONS.md#who-is-rung-for
    /// The same where an island is on the list: a worker calls this before a turn that may last.
    pub fn call_for_more(&self) {
        if !self.queue.is_empty() {
            self.call_one();
        }
    }

    /// The worker that calls this is at a turn that may wait for a read. True where no island is on the list, or another worker comes to it.
    pub fn begin_wait(&self) -> bool {
        let others = self.waiting.fetch_add(1, Ordering::SeqCst);
        if self.queue.is_empty() {
            return true;
        }
        self.call_one();
        self.asleep.load(Ordering::SeqCst) > 0
            || self.busy.load(Ordering::SeqCst).saturating_sub(others) > 1
    }

    /// It is there no longer.
    pub fn end_wait(&self) {
        self.waiting.fetch_sub(1, Ordering::SeqCst);
    }

    /// How many whole naps there were, before a turn begins.
    pub fn naps(&self) -> u64 {
        self.naps.load(Ordering::SeqCst)
    }

    // Choice: docs/DECISIONS.md#slow-turns-are-learnt
    /// Whether a turn lasted longer than a nap that began behind so many naps. It did not where nobody watched.
    pub fn lasted(&self, naps: u64) -> bool {
        self.naps().saturating_sub(naps) > 1
    }

    /// The worker that calls this is busy from here on.
    pub fn join(&self) {
        self.busy.fetch_add(1, Ordering::SeqCst);
    }

    // Choice: docs/DECISIONS.md#when-workers-leave
    /// The worker that calls this is busy no longer. True where another one is; where none is, those that sleep are woken.
    pub fn rest(&self) -> bool {
        let others = self.busy.fetch_sub(1, Ordering::SeqCst) > 1;
        if !others {
            self.bell.notify_all();
        }
        others
    }

    /// The worker that calls this took so many turns in its lap, and takes another one. It answers how many these are.
    pub fn stride(&self, taken: u32) -> u32 {
        if taken < LAP {
            return taken + 1;
        }
        if self.laps.fetch_add(1, Ordering::SeqCst) % LAPS == LAPS - 1 {
            self.quick.store(SLOW_NAPS, Ordering::SeqCst);
        }
        1
    }

    // Choice: docs/DECISIONS.md#quick-turns-stay
    /// From how many units on a turn is worth another worker for what it woke.
    pub fn long_turn(&self) -> u32 {
        if self.is_quick() { LONG_IF_QUICK } else { LONG }
    }

    // Whether turns count as too short to be worth another worker.
    fn is_quick(&self) -> bool {
        self.quick.load(Ordering::SeqCst) > 0
    }

    // What a nap in which nobody rang shows of that.
    fn note_nap(&self, slow: bool) {
        let left = if slow {
            self.quick.load(Ordering::SeqCst).saturating_sub(1)
        } else {
            SLOW_NAPS
        };
        self.quick.store(left, Ordering::SeqCst);
    }

    /// Waits until an island is on the list, or no worker is busy. True in the first case.
    pub fn wait<R: Wait>(&self, rt: &R) -> bool {
        let mut sight = if self.is_quick() {
            self.look()
        } else {
            self.look_awake(rt)
        };
        for _ in rt.forever() {
            match sight {
                Sight::Island => {
                    self.hand_watch_on();
                    return true;
                }
                Sight::Nobody => return false,
                Sight::Nothing => {}
            }
            if self.watched.swap(1, Ordering::SeqCst) == 0 {
                sight = self.watch(rt);
            } else {
                self.sleep(rt);
                sight = self.look();
            }
        }
        unreachable!()
    }

    // One look.
    fn look(&self) -> Sight {
        if !self.queue.is_empty() {
            return Sight::Island;
        }
        if self.busy.load(Ordering::SeqCst) == 0 {
            Sight::Nobody
        } else {
            Sight::Nothing
        }
    }

    // Looks some times, without sleep.
    fn look_awake<R: Wait>(&self, rt: &R) -> Sight {
        let backoff = Backoff::new();
        for _ in 0..LOOKS {
            let sight = self.look();
            if !sight.is_nothing() {
                return sight;
            }
            backoff.snooze();
        }
        self.look()
    }

    // Where nobody watches, it wakes one that sleeps, who then will.
    fn hand_watch_on(&self) {
        if self.watched.load(Ordering::SeqCst) == 0 {
            self.call_one();
        }
    }

    // What a worker that watches compares.
    fn signs(&self) -> Signs {
        Signs {
            rings: self.bell.notifications(),
            laps: self.laps.load(Ordering::SeqCst),
        }
    }

    // Behind a nap: whether the bell was rung in it, or no more laps began than workers are busy.
    fn is_wanted(&self, before: Signs, now: Signs) -> bool {
        if now.rings != before.rings {
            return true;
        }
        self.naps.fetch_add(1, Ordering::SeqCst);
        let slow = now.laps.saturating_sub(before.laps) <= self.busy.load(Ordering::SeqCst);
        self.note_nap(slow);
        slow
    }

    // Watches, until it finds an island that it is to take, or nobody busy. It may take one that it finds at once, or behind a nap in
    // which the bell was rung or turns were slow.
    fn watch<R: Wait>(&self, rt: &R) -> Sight {
        self.asleep.fetch_add(1, Ordering::SeqCst);
        let mut signs = self.signs();
        let mut may_take = true;
        let mut sight = self.look();
        for _ in rt.forever() {
            if sight.ends_watch(may_take) {
                break;
            }
            self.bell.sleep(rt, signs.rings, Duration::from_millis(NAP));
            let before = signs;
            signs = self.signs();
            may_take = self.is_wanted(before, signs);
            sight = self.look();
        }
        self.asleep.fetch_sub(1, Ordering::SeqCst);
        self.watched.store(0, Ordering::SeqCst);
        sight
    }

    // Sleeps until another worker wakes it, and no longer than SLEEP.
    // Choice: docs/DECISIONS.md#workers-sleep
    fn sleep<R: Wait>(&self, rt: &R) {
        self.asleep.fetch_add(1, Ordering::SeqCst);
        let rings = self.bell.notifications();
        if self.look().is_nothing() && self.watched.load(Ordering::SeqCst) != 0 {
            self.bell.sleep(rt, rings, Duration::from_millis(SLEEP));
        }
        self.asleep.fetch_sub(1, Ordering::SeqCst);
    }
}

// What a look comes to: an island on the list; or none, and nobody busy who might put one; or none yet.
#[derive(Clone, Copy)]
enum Sight {
    Island,
    Nobody,
    Nothing,
}

impl Sight {
    fn is_nothing(self) -> bool {
        match self {
            Sight::Nothing => true,
            Sight::Island | Sight::Nobody => false,
        }
    }

    // Whether the worker that watches is done with it.
    fn ends_watch(self, may_take: bool) -> bool {
        match self {
            Sight::Island => may_take,
            Sight::Nobody => true,
            Sight::Nothing => false,
        }
    }
}

// How often the bell was rung, and how many laps began.
#[derive(Clone, Copy)]
struct Signs {
    rings: u64,
    laps: u64,
}
