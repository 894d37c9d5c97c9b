ghost use Rattle.insar_commands.specs.Ends.{end_of_put};
ghost use Rattle.std.specs.Prelude.{◌≡◌};

use answer_lines::Refusal;
use insar_ports::WriteFault;

/// How a request ends whose text was put: with this status, unless there was a fault.
pub fn end_of(put: Result<(), WriteFault>, status: u8) -> Result<u8, Refusal>
    ensures { result ≡ end_of_put put status }
{
    match put {
        Ok(()) => Ok(status),
        Err(_) => Err(Refusal::WriteFault),
    }
}
