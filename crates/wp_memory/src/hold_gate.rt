use std::alloc::{AllocError, Global};
use std::sync::atomic::AtomicBool;
use std::sync::atomic::Ordering::SeqCst;
use std::thread;
use wp_outside::Gate;

/// What a held line waits for, by a client and a line of it, both from 1 on.
#[derive(Clone, Copy)]
pub enum Until {
    /// The client has come to the line.
    Arrived(usize, usize),
    /// The line is answered.
    Answered(usize, usize),
}

/// A line that is held back. Clients and lines are counted from 1.
#[derive(Clone, Copy)]
pub struct Hold {
    pub client: usize,
    pub line: usize,
    pub until: Until,
}

/// How far a line has come that a hold names.
#[derive(Drop)]
struct Progress {
    client: usize,
    line: usize,
    arrived: AtomicBool,
    answered: AtomicBool,
}

impl Progress {
    fn new(client: usize, line: usize) -> Progress {
        Progress {
            client,
            line,
            arrived: AtomicBool::new(false),
            answered: AtomicBool::new(false),
        }
    }

    fn is_of(&self, client: usize, line: usize) -> bool {
        self.client == client && self.line == line
    }

    fn has_arrived(&self) -> bool {
        self.arrived.load(SeqCst)
    }

    fn is_answered(&self) -> bool {
        self.answered.load(SeqCst)
    }
}

/// Holds lines back for tests that need an order between threads. Each hold ends by itself once its turns are used up.
#[derive(Drop)]
pub struct HoldGate {
    holds: Vec<Hold>,
    named: Vec<Progress>,
    turns: u64,
    late: AtomicBool,
}

impl HoldGate {
    /// A gate with these holds, which takes all its memory here. A line that comes to a hold asks at most `turns` times whether
    /// that is over, and yields the processor after each time. A line with several holds waits for one after the other.
    pub fn new(alloc: Global, holds: Vec<Hold>, turns: u64) -> Result<HoldGate, AllocError> {
        let mut named = Vec::new(alloc);
        for hold in &holds {
            let (client, line) = match hold.until {
                Until::Arrived(client, line) => (client, line),
                Until::Answered(client, line) => (client, line),
            };
            named.push(Progress::new(hold.client, hold.line))?;
            named.push(Progress::new(client, line))?;
        }
        Ok(HoldGate {
            holds,
            named,
            turns,
            late: AtomicBool::new(false),
        })
    }

    /// The turns of a hold were used up, and its line went on.
    pub fn late(&self) -> bool {
        self.late.load(SeqCst)
    }

    /// Each line that a hold names, as held or as waited for, came and was answered.
    pub fn whole(&self) -> bool {
        self.named
            .iter()
            .all(|line| line.has_arrived() && line.is_answered())
    }

    fn is_over(&self, until: Until) -> bool {
        self.named.iter().any(|named| match until {
            Until::Arrived(client, line) => named.is_of(client, line) && named.has_arrived(),
            Until::Answered(client, line) => named.is_of(client, line) && named.is_answered(),
        })
    }

    fn wait(&self, until: Until) {
        for _ in 0..self.turns {
            if self.is_over(until) {
                return;
            }
            thread::yield_now();
        }
        self.late.store(true, SeqCst);
    }
}

impl Gate for HoldGate {
    fn pass(&self, client: usize, line: usize) {
        for named in &self.named {
            if named.is_of(client, line) {
                named.arrived.store(true, SeqCst);
            }
        }
        for hold in &self.holds {
            if hold.client == client && hold.line == line {
                self.wait(hold.until);
            }
        }
    }

    fn done(&self, client: usize, line: usize) {
        for named in &self.named {
            if named.is_of(client, line) {
                named.answered.store(true, SeqCst);
            }
        }
    }
}
