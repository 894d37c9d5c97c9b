ghost use Rattle.raster_model.specs.declared.script.Script.{Script as ScriptOf};
ghost use Rattle.std.specs.Prelude.{◌≡◌, ◌↔◌, ℕ, IsTrue, Some, length, slice_get, slice_index};
ghost use Rattle.tile_board.specs.Histories.{script_in};
ghost use Rattle.tile_board.specs.Places.{cursor_at};

use raster_model::{Command, Script};

/// How many commands an analyst has done, or 0 if there is no such analyst. `cursors` has the count of each analyst,
/// and the first is that of analyst 1.
pub fn cursor_of(cursors: &[u32], analyst: u32) -> u32
    ensures { result ≡ cursor_at cursors.now analyst }
{
    if analyst == 0 {
        return 0;
    }
    cursors.get(analyst as usize - 1).copied().unwrap_or(0)
}

/// The command at a place of an analyst's script, or None if there is no such analyst or command. Places count from 0,
/// and the first script is that of analyst 1.
pub fn command_at(scripts: &[Script], analyst: u32, place: u32) -> Option<Command>
    ensures { result ≡ slice_get (script_in scripts.now analyst) place }
{
    if analyst == 0 {
        return None;
    }
    let script = scripts.get(analyst as usize - 1)?;
    script.commands.get(place as usize).copied()
}

/// Whether each analyst has done every command of its script. `cursors` has a count of commands for each script.
pub fn all_ended(scripts: &[Script], cursors: &[u32]) -> bool
    requires { length cursors.now ≡ length scripts.now }
    ensures { IsTrue result ↔ ((k : ℕ) (script : ScriptOf) → slice_get scripts.now k ≡ Some script → slice_index cursors.now k ≡ length script.commands.items) }
{
    for (place, script) in scripts.iter().enumerate() {
        if cursors[place] as usize != script.commands.len() {
            return false;
        }
    }
    true
}
