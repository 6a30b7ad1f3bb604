ghost use Rattle.std.specs.Prelude.{◌≡◌, ◌≤◌, IfOk};
ghost use Rattle.wp_make.specs.Generator.{made_part, made_script};

use crate::maker::Maker;
use crate::words::client_name;
use std::alloc::{AllocError, Global};
use wp_text::{Commands, Part, Script};

fn make_part(alloc: Global, seed: u32, lines: u32, client: u32) -> Result<Part, AllocError>
    requires { lines ≤ 1000 }
    ensures { IfOk result (λ part. part ≡ made_part seed lines client) }
{
    let mut maker = Maker::new(seed, client);
    let mut commands = Commands::new(Vec::new(alloc));
    for _turn in 0..lines {
        maker.make_next(alloc, &mut commands)?;
    }
    Ok(Part {
        client: client_name(alloc, client)?,
        commands,
    })
}

/// The script of this seed: so many clients, 1 to 16, and so many turns of each, 1 to 1000. A turn is one line, or two where it ends
/// a transaction.
pub fn make_script(alloc: Global, seed: u32, clients: u32, lines: u32) -> Result<Script, AllocError>
    requires clients { (1 ≤ clients) × (clients ≤ 16) }
    requires lines { (1 ≤ lines) × (lines ≤ 1000) }
    ensures { IfOk result (λ script. script ≡ made_script seed clients lines) }
{
    let mut parts = Vec::new(alloc);
    for i in 0..clients {
        parts.push(make_part(alloc, seed, lines, i + 1)?)?;
    }
    Ok(Script::new(parts))
}
