ghost use Rattle.std.specs.Prelude.{◌≡◌, ◌≢◌};
ghost use Rattle.firm_rules.specs.declared.commands.Command.TheVariants.{Round};

use firm_hall::{Desk, Hall};
use firm_rules::{Command, Reply};
use std::alloc::Global;
use std::sync::Wait;

/// The desk with the replies to a command and to the round after it.
pub fn serve_two<R: Wait>(
    rt: &R,
    alloc: Global,
    hall: &Hall,
    mut desk: Desk,
    command: Command,
) -> (Desk, Reply, Reply)
    requires of { desk.queue ≡ hall.now.id }
    requires other { command ≢ Round }
{
    let first = desk.command(alloc, command);
    match desk.ask(rt, alloc, hall) {
        Ok(asked) => {
            let (desk, second) = asked.wait(rt);
            (desk, first, second)
        }
        Err((desk, second)) => (desk, first, second),
    }
}
