ghost use Rattle.std.specs.Prelude.{IfOk, IfErr, MatchResult};
ghost use Rattle.wp_cuts.specs.LegalCut.{IsOrderlyCut};
ghost use Rattle.wp_contents.specs.Devices.{devices_of};
ghost use Rattle.wp_checkpoint.specs.Amid.{LeavesAmid};
ghost use Rattle.wp_checkpoint.specs.Copy.{MakesCopy, MayAllBeCopied, copied_cut};
ghost use Rattle.wp_checkpoint.specs.Target.{RefusesCopy};

use crate::error::{CopyError, CopyRefused};
use crate::image::image_of;
use crate::looking::look;
use crate::rows::Rows;
use crate::writing::write;
use std::alloc::Global;
use wp_model::{Carried, Seq};
use wp_outside::{Disk, Disks};

/// What was copied.
#[derive(Clone, Copy)]
pub struct Copied {
    /// The number at which.
    pub at: Seq,
    /// How many versions the table has: those of the rows, and those of the carried prepares.
    pub versions: u64,
    /// How many prepares are carried.
    pub carried: u64,
}

fn copy<R: Rows, E: Disk>(
    alloc: Global,
    rows: &mut R,
    carried: &[Carried],
    at: Seq,
    id: u32,
    target: &mut Disks<E>,
) -> Result<Copied, CopyError>
    requires cut { IsOrderlyCut (copied_cut at carried.now) }
    requires rows { MayAllBeCopied at carried.now (R.left rows.old) (R.gives rows.old) }
    ensures made { IfOk result (λ copied. MakesCopy id at (R.left rows.old) (R.gives rows.old) carried.now
        (devices_of E.moments E.faults target.old) copied (devices_of E.moments E.faults target.new)) }
    ensures refused { IfErr result (RefusesCopy (devices_of E.moments E.faults target.old) (devices_of E.moments E.faults target.new)) }
    ensures amid { LeavesAmid id at carried.now (devices_of E.moments E.faults target.old) (devices_of E.moments E.faults target.new) }
    ensures later { R.later rows.old rows.new }
{
    look(target)?;
    let image = image_of(alloc, rows, carried, at, id)?;
    write(&image, target)?;
    Ok(image.copied)
}

/// Copies the rows and the carried prepares, all at the number `at`, to three empty devices: a store with this id, whose log begins at
/// that number. The numbers of the rows are from 1 to `at`, none is a carried prepare's, and a row of a carried prepare's key is
/// below that prepare. So a number between an undo and its close will not do where the undo's transaction is carried: the undo's number is a row's
/// then. The targets are looked at in the order log, manifest, tables, and written in the order tables, log, manifest. It returns
/// where the rows' `next` does.
pub fn checkpoint<R: Rows, E: Disk>(
    alloc: Global,
    rows: &mut R,
    carried: &[Carried],
    at: Seq,
    id: u32,
    target: Disks<E>,
) -> Result<(Copied, Disks<E>), CopyRefused<E>>
    requires cut { IsOrderlyCut (copied_cut at carried.now) }
    requires rows { MayAllBeCopied at carried.now (R.left rows.old) (R.gives rows.old) }
    ensures made { IfOk result (λ made. MakesCopy id at (R.left rows.old) (R.gives rows.old) carried.now
        (devices_of E.moments E.faults target) made.0 (devices_of E.moments E.faults made.1)) }
    ensures refused { IfErr result (λ refused. RefusesCopy
        (devices_of E.moments E.faults target) (devices_of E.moments E.faults refused.target) refused.why) }
    ensures amid { MatchResult result
        (λ made. LeavesAmid id at carried.now (devices_of E.moments E.faults target) (devices_of E.moments E.faults made.1))
        (λ refused. LeavesAmid id at carried.now (devices_of E.moments E.faults target) (devices_of E.moments E.faults refused.target)) }
    ensures later { R.later rows.old rows.new }
{
    let mut target = target;
    match copy(alloc, rows, carried, at, id, &mut target) {
        Ok(copied) => Ok((copied, target)),
        Err(why) => Err(CopyRefused { target, why }),
    }
}
