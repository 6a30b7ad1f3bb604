//! A program that keeps a store of its own, on three files: a transfer between two accounts is prepared, decided, and read at one
//! snapshot; two more are decided by one record, all accounts are listed at another snapshot, and the store is copied to three more
//! files. It names the front door and the kit's library alone.
#![tactic(auto)]

mod bank;
mod copying;
mod error;
mod listing;
mod settling;
mod transfer;

use crate::bank::keep;
use basilcorbel::{Disks, FileDisk};
use std::io::Write;
use std::process::ExitCode;

fn main(rt: HostRuntime) -> ExitCode {
    let disks = Disks {
        log: FileDisk::new(&rt, "bank.log"),
        manifest: FileDisk::new(&rt, "bank.manifest"),
        tables: FileDisk::new(&rt, "bank.tables"),
    };
    let target = Disks {
        log: FileDisk::new(&rt, "copy.log"),
        manifest: FileDisk::new(&rt, "copy.manifest"),
        tables: FileDisk::new(&rt, "copy.tables"),
    };
    let told = keep(&rt, rt.alloc(), disks, target);
    let written = match &told {
        Ok(balances) => println!(rt; "{balances}"),
        Err(error) => println!(rt; "{error}"),
    };
    ExitCode::from(u8::from(told.is_err() || written.is_err()))
}
