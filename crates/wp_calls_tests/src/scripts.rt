//! Scripts: what two clients of a store do, and what it says, step by step.
ghost use Rattle.std.specs.Prelude.{◌≡◌, ◌≤◌, true, None, IfSome};
ghost use Rattle.wp_core.specs.Sound.Snapshots.{has_versions_at};
ghost use Rattle.wp_shared.specs.Seats.{IsFree};
ghost use Rattle.wp_calls_tests.specs.Ready.{IsFirst, IsReader, IsWriter};

use crate::reader::{Reading, glance, learn, read};
use crate::stores::{Seats, end, new_disks, opened};
use crate::writer::{Writing, key, write};
use std::alloc::Global;
use std::process::Abort;
use std::sync::Wait;
use std::test::*;
use wp_memory::MemDisk;
use wp_model::Seq;
use wp_outside::Disks;
use wp_read::Snapshot;
use wp_scan::Scan;
use wp_shared::{Seat, Shared};
use wp_txn::{OpenTxn, PreparedTxn};

/// What comes next, and what is said.
#[derive(Clone, Copy)]
pub(super) enum Step {
    /// A call of the first client, which writes.
    One(Writing),
    /// A call of the second one, which reads, writes at once, and moves versions.
    Two(Reading),
    /// The second client learns what the first one has seen, with its version, and the published number.
    TwoLearns(Seq),
    /// The first client, which has no transaction, learns what the second one has seen, and looks at its version as of now: at a
    /// snapshot with this number.
    OneLooks(Seq, &'static str),
}

/// What the clients have. It has to be let go.
pub(super) struct Held {
    pub(super) begun: Option<OpenTxn>,
    pub(super) prepared: Option<PreparedTxn>,
    /// The number of the entry with versions that the first client's last step made or took.
    pub(super) made: Option<Seq>,
    pub(super) snapshot: Option<Snapshot>,
    /// The number of an entry with versions, which the second client has seen.
    pub(super) version: Option<Seq>,
}

impl Held {
    fn of(
        begun: Option<OpenTxn>,
        prepared: Option<PreparedTxn>,
        made: Option<Seq>,
        snapshot: Option<Snapshot>,
        version: Option<Seq>,
    ) -> Held
        ensures { result ≡ record { begun = begun; prepared = prepared; made = made; snapshot = snapshot; version = version } }
    {
        Held {
            begun,
            prepared,
            made,
            snapshot,
            version,
        }
    }
}

/// Takes the step. Whether it says what it has to, where memory is not wanting.
fn take_once<R: Abort + Wait>(
    store: &Shared<MemDisk>,
    rt: &R,
    alloc: Global,
    one: &mut Seat<MemDisk>,
    two: &mut Seat<MemDisk>,
    held: Held,
    scan: &mut Scan,
    step: Step,
) -> (Held, Option<bool>)
    requires one { IsWriter store.now one.old held.begun held.prepared }
    requires made { IfSome held.made (λ p. has_versions_at one.old.knows.participant.seen p ≡ true) }
    requires two { IsReader store.now two.old held.snapshot held.version }
    ensures one { IsWriter store.now one.new result.0.begun result.0.prepared }
    ensures made { IfSome result.0.made (λ p. has_versions_at one.new.knows.participant.seen p ≡ true) }
    ensures two { IsReader store.now two.new result.0.snapshot result.0.version }
{
    let Held {
        begun,
        prepared,
        made,
        snapshot,
        version,
    } = held;
    match step {
        Step::One(what) => {
            let (begun, prepared, made, outcome) = write(
                store, rt, alloc, one, begun, prepared, what,
            );
            (Held::of(begun, prepared, made, snapshot, version), outcome)
        }
        Step::Two(what) => {
            let (snapshot, outcome) = read(store, rt, alloc, two, snapshot, version, scan, what);
            (Held::of(begun, prepared, made, snapshot, version), outcome)
        }
        Step::TwoLearns(at) => {
            let published = learn(store, two, one);
            let held = Held::of(begun, prepared, made, snapshot, made);
            (held, Some(published == at))
        }
        Step::OneLooks(at, said) => match (begun, prepared, version) {
            (None, None, Some(p)) => {
                let published = learn(store, one, two);
                let outcome = match glance(store, rt, one, p, at, said) {
                    Some(is_so) => Some(is_so && published == at),
                    None => None,
                };
                (Held::of(None, None, None, snapshot, Some(p)), outcome)
            }
            (_begun, _prepared, _version) => panic!(rt; "the first client can't look now"),
        },
    }
}

/// Takes the step, once more where it wanted memory.
fn take<R: Abort + Wait>(
    store: &Shared<MemDisk>,
    rt: &R,
    alloc: Global,
    one: &mut Seat<MemDisk>,
    two: &mut Seat<MemDisk>,
    held: Held,
    scan: &mut Scan,
    step: Step,
) -> (Held, Option<bool>)
    requires one { IsWriter store.now one.old held.begun held.prepared }
    requires made { IfSome held.made (λ p. has_versions_at one.old.knows.participant.seen p ≡ true) }
    requires two { IsReader store.now two.old held.snapshot held.version }
    ensures one { IsWriter store.now one.new result.0.begun result.0.prepared }
    ensures made { IfSome result.0.made (λ p. has_versions_at one.new.knows.participant.seen p ≡ true) }
    ensures two { IsReader store.now two.new result.0.snapshot result.0.version }
{
    let (held, outcome) = take_once(store, rt, alloc, one, two, held, scan, step);
    match outcome {
        None => take_once(store, rt, alloc, one, two, held, scan, step),
        Some(is_so) => (held, Some(is_so)),
    }
}

/// The two clients of a store, each with its seat, and the second one's scan.
pub(super) struct Clients {
    pub(super) one: Seat<MemDisk>,
    pub(super) two: Seat<MemDisk>,
    pub(super) held: Held,
    scan: Scan,
}

/// Clients that have nothing yet. The scan is from `a` to `f`.
pub(super) fn clients_of<R: Abort>(
    rt: &R,
    alloc: Global,
    one: Seat<MemDisk>,
    two: Seat<MemDisk>,
) -> Clients
    ensures seats { (result.one ≡ one) × (result.two ≡ two) }
    ensures held { result.held ≡ record { begun = None; prepared = None; made = None; snapshot = None; version = None } }
{
    let Ok(scan) = Scan::begin(alloc, &key(rt, alloc, b"a"), &key(rt, alloc, b"f")) else {
        panic!(rt; "no memory for a scan");
    };
    let held = Held::of(None, None, None, None, None);
    Clients {
        one,
        two,
        held,
        scan,
    }
}

/// Takes the steps, each of which has to say what it has to.
pub(super) fn go_on<R: Abort + Wait>(
    store: &Shared<MemDisk>,
    rt: &R,
    alloc: Global,
    clients: Clients,
    name: &str,
    steps: &[Step],
) -> Clients
    requires one { IsWriter store.now clients.one clients.held.begun clients.held.prepared }
    requires made { IfSome clients.held.made (λ p. has_versions_at clients.one.knows.participant.seen p ≡ true) }
    requires two { IsReader store.now clients.two clients.held.snapshot clients.held.version }
    ensures one { IsWriter store.now result.one result.held.begun result.held.prepared }
    ensures made { IfSome result.held.made (λ p. has_versions_at result.one.knows.participant.seen p ≡ true) }
    ensures two { IsReader store.now result.two result.held.snapshot result.held.version }
{
    let Clients {
        mut one,
        mut two,
        mut held,
        mut scan,
    } = clients;
    for (place, step) in steps.iter().enumerate() {
        let (next, outcome) = take(store, rt, alloc, &mut one, &mut two, held, &mut scan, *step);
        assert!(rt; matches!(outcome, Some(true)), "{name}, step {place}");
        held = next;
    }
    Clients {
        one,
        two,
        held,
        scan,
    }
}

/// Ends the store of two clients that have nothing left.
pub(super) fn leave_store<R: Abort>(
    rt: &R,
    alloc: Global,
    name: &str,
    store: Shared<MemDisk>,
    first: Seat<MemDisk>,
    clients: Clients,
)
    requires first { IsFirst store first }
    requires one { IsFree store.table clients.one }
    requires two { IsFree store.table clients.two }
{
    let Clients {
        one: writing,
        two: reading,
        held,
        scan: _scan,
    } = clients;
    let Held {
        begun,
        prepared,
        made: _made,
        snapshot,
        version: _version,
    } = held;
    match (begun, prepared, snapshot) {
        (None, None, None) => {
            let seats = Seats {
                store,
                first,
                writing,
                reading,
            };
            end(rt, alloc, seats);
        }
        (_begun, _prepared, _snapshot) => panic!(rt; "{name}: a client has something left"),
    }
}

/// Opens the store of these devices with a commit cache of so many bits, at most 16, takes the steps and ends it.
pub(super) fn play_on<R: Abort + Wait>(
    rt: &R,
    alloc: Global,
    disks: Disks<MemDisk>,
    name: &str,
    bits: u32,
    steps: &[Step],
)
    requires { bits ≤ 16 }
{
    let Seats {
        store,
        first,
        writing,
        reading,
    } = opened(rt, alloc, disks, bits);
    let clients = clients_of(rt, alloc, writing, reading);
    let clients = go_on(&store, rt, alloc, clients, name, steps);
    leave_store(rt, alloc, name, store, first, clients);
}

/// Takes the steps in a new store.
pub(super) fn play<R: Abort + Wait>(rt: &R, alloc: Global, name: &str, bits: u32, steps: &[Step])
    requires { bits ≤ 16 }
{
    play_on(rt, alloc, new_disks(rt, alloc), name, bits, steps);
}
