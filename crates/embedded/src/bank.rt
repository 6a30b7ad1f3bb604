//! The bank's store, from its opening to its end.
ghost use Rattle.std.specs.Prelude.{◌≡◌};
ghost use Rattle.embedded.specs.Alone.{IsAlone};

use crate::copying::copy;
use crate::error::BankError;
use crate::listing::{Listing, list};
use crate::settling::settle;
use crate::transfer::{Balances, decide, look, prepare_transfer};
use basilcorbel::{
    Change, Copied, Disk, Disks, Key, Name, OpenRefused, Seat, Seq, Shared, Value, leave,
    open_shared, write,
};
use std::alloc::Global;
use std::fmt;
use std::sync::Wait;

/// The commit cache has two to this power places.
const BITS: u32 = 10;

/// No entry has a greater number.
const LIMIT: Seq = (1 << 46) - 1;

/// The number of the store, where it is made.
const ID: u32 = 1;

/// What came of the transfers, and what all accounts have behind them.
#[derive(Drop)]
struct Served {
    prepared: Seq,
    decided: Seq,
    balances: Balances,
    settled: Seq,
    listing: Listing,
}

/// What came of the transfers, and of the copy behind them.
#[derive(Drop)]
pub(crate) struct Told {
    served: Served,
    copied: Copied,
}

/// The two accounts.
#[derive(Drop)]
struct Accounts {
    payer: Key,
    payee: Key,
}

fn text(bytes: &[u8]) -> &str {
    str::from_utf8(bytes).unwrap_or("?")
}

/// What an account has, as text.
fn shown(balance: &Option<Value>) -> &str {
    match balance {
        Some(value) => text(value.bytes()),
        None => "nothing",
    }
}

impl fmt::Display for Served {
    fn fmt<W: fmt::Write>(&self, f: &mut fmt::Formatter<W>) -> fmt::Result {
        let Balances { at, payer, payee } = &self.balances;
        writeln!(f, "prepared @{}", self.prepared)?;
        writeln!(f, "decided @{}", self.decided)?;
        writeln!(f, "anna {} ben {} @{at}", shown(payer), shown(payee))?;
        writeln!(f, "settled @{}", self.settled)?;
        write!(f, "accounts @{}", self.listing.at)?;
        for row in &self.listing.rows {
            write!(f, "\n{} {}", text(row.key.bytes()), text(row.value.bytes()))?;
        }
        Ok(())
    }
}

impl fmt::Display for Told {
    fn fmt<W: fmt::Write>(&self, f: &mut fmt::Formatter<W>) -> fmt::Result {
        let Copied {
            at,
            versions,
            carried,
        } = self.copied;
        writeln!(f, "{}", self.served)?;
        write!(f, "copied @{at}: {versions} versions, {carried} prepared")
    }
}

/// The account has this much from now on.
fn put(alloc: Global, account: &Key, balance: &[u8]) -> Result<Change, BankError> {
    Ok(Change::Put(account.copy(alloc)?, Value::read(alloc, balance)?))
}

/// Prepares a transfer of this name, and lets go of it.
fn leave_transfer<D: Disk + Drop, R: Wait>(
    store: &Shared<D>,
    rt: &R,
    alloc: Global,
    seat: &mut Seat<D>,
    name: &Name,
    debit: Change,
    credit: Change,
) -> Result<(), BankError>
    requires { IsAlone store.now seat.old }
    ensures { IsAlone store.now seat.new }
{
    let name = name.copy(alloc)?;
    let prepared = prepare_transfer(store, rt, alloc, seat, name, debit, credit)?;
    leave(store, rt, seat, prepared);
    Ok(())
}

/// Two more transfers come in, 10 from the payer to carl and 5 from the payee to dora. They are decided together.
fn settle_two<D: Disk + Drop, R: Wait>(
    store: &Shared<D>,
    rt: &R,
    alloc: Global,
    seat: &mut Seat<D>,
    accounts: &Accounts,
) -> Result<Seq, BankError>
    requires { IsAlone store.now seat.old }
    ensures { IsAlone store.now seat.new }
{
    let Accounts { payer, payee } = accounts;
    let carl = Key::read(alloc, b"carl")?;
    let dora = Key::read(alloc, b"dora")?;
    let morning = Name::read(alloc, b"morning")?;
    let noon = Name::read(alloc, b"noon")?;
    let debit = put(alloc, payer, b"60")?;
    let credit = put(alloc, &carl, b"10")?;
    leave_transfer(store, rt, alloc, seat, &morning, debit, credit)?;
    let debit = put(alloc, payee, b"25")?;
    let credit = put(alloc, &dora, b"5")?;
    leave_transfer(store, rt, alloc, seat, &noon, debit, credit)?;
    Ok(settle(store, rt, alloc, seat, &morning, &noon)?)
}

/// The payer gets 100, and transfers 30 of it to the payee. Two more transfers are decided together behind that, and all accounts are
/// listed.
fn serve<D: Disk + Drop, R: Wait>(
    store: &Shared<D>,
    rt: &R,
    alloc: Global,
    seat: &mut Seat<D>,
    accounts: &Accounts,
) -> Result<Served, BankError>
    requires alone { IsAlone store.now seat.old }
    requires idle { seat.old.knows.participant.direct ≡ None }
    ensures { IsAlone store.now seat.new }
{
    let Accounts { payer, payee } = accounts;
    write(store, rt, alloc, seat, put(alloc, payer, b"100")?)?;
    let name = Name::read(alloc, b"transfer")?;
    let debit = put(alloc, payer, b"70")?;
    let credit = put(alloc, payee, b"30")?;
    let prepared = prepare_transfer(store, rt, alloc, seat, name, debit, credit)?;
    let number = prepared.number();
    let decided = decide(store, rt, alloc, seat, prepared)?;
    let balances = look(store, rt, seat, payer, payee)?;
    let settled = settle_two(store, rt, alloc, seat, accounts)?;
    let first = Key::read(alloc, b"a")?;
    let last = Key::read(alloc, b"z")?;
    let listing = list(store, rt, alloc, seat, &first, &last)?;
    Ok(Served {
        prepared: number,
        decided,
        balances,
        settled,
        listing,
    })
}

/// Keeps a store on these devices for the transfers, and copies it to empty ones.
pub(crate) fn keep<D: Disk + Drop, R: Wait>(
    rt: &R,
    alloc: Global,
    disks: Disks<D>,
    target: Disks<D>,
) -> Result<Told, BankError> {
    let accounts = Accounts {
        payer: Key::read(alloc, b"anna")?,
        payee: Key::read(alloc, b"ben")?,
    };
    let teller = Name::read(alloc, b"teller")?;
    let mut seats = Vec::with_capacity(alloc, 1)?;
    match open_shared(alloc, teller, disks, BITS, LIMIT, ID) {
        Ok((store, mut seat, _id)) => {
            let served = serve(&store, rt, alloc, &mut seat, &accounts);
            let (seat, copied) = copy(&store, rt, alloc, seat, target);
            seats.push_reserved(seat);
            store.finish(seats);
            Ok(Told {
                served: served?,
                copied: copied?,
            })
        }
        Err(OpenRefused { why, .. }) => Err(BankError::Opening(why)),
    }
}
