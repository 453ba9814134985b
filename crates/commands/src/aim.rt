// The file of a name: found, found to be changed, and whether it may be.
ghost use Rattle.std.specs.Prelude.{◌≡◌, ◌<◌};
ghost use Rattle.layout.specs.Image.{Whole, geometry_of, disk};
ghost use Rattle.layout.specs.Names.{read_name};
ghost use Rattle.layout.specs.Status.{verdict};
ghost use Rattle.rules.specs.Commands.{sought, target, TellsTarget, may_change, may_free};
ghost use Rattle.commands.specs.InSlot.{InSlot};

use channels::slots::held;
use directory::find::find;
use directory::flags::locked;
use files::chain::clean;
use image::slot::flag;
use layout::density::Medium;
use layout::status::{self, Status};
use layout::{FileName, Table};
use names::read_name;
use rules::Unfound;
use volume::table::table_good;

// The name's refusal, then the slot found, or the name that no file has.
#[tactic(auto, unfolding(rules::specs::Commands::sought, layout::specs::Directory::found))]
pub fn find_file(m: Medium, image: &[u8], n: Result<FileName, Status>) -> Result<u16, Unfound>
    requires { Whole m image.now }
    ensures { TellsTarget (sought (disk m image.now) n) result × InSlot result }
{
    let f = n?;
    find(m, image, f.name, f.extension).ok_or(Unfound::Missing(f))
}

// The file that a command is to change: 163 stands before the search.
#[tactic(auto, unfolding(rules::specs::Commands::target, layout::specs::Basics::check))]
pub fn find_target(m: Medium, image: &[u8], n: Result<FileName, Status>) -> Result<u16, Unfound>
    requires { Whole m image.now }
    ensures { TellsTarget (target (disk m image.now) n) result × InSlot result }
{
    let wanted = n?;
    if !table_good(m, image) {
        return Err(Unfound::Denied(status::BAD_TABLE));
    }
    find_file(m, image, Ok(wanted))
}

// The file that a command is to change, by the name in its text.
pub fn find_named(m: Medium, image: &[u8], text: &[u8]) -> Result<u16, Unfound>
    requires { Whole m image.now }
    ensures { TellsTarget (target (disk m image.now) (read_name text.now)) result × InSlot result }
{
    find_target(m, image, read_name(text))
}

// Whether the file in slot s may be changed: 167 or 200 where not.
#[tactic(auto, unfolding(rules::specs::Commands::may_change, layout::specs::Basics::check))]
pub fn may_change(m: Medium, image: &[u8], t: Table, s: u16) -> Result<(), Status>
    requires { Whole m image.now × (s < 64) }
    ensures { result ≡ verdict (may_change (disk m image.now) t s) }
{
    if locked(flag(m, image, s)) {
        return Err(status::FILE_LOCKED);
    }
    if held(m, image, t, s) {
        return Err(status::FILE_HELD);
    }
    Ok(())
}

// Whether its chain may be freed too: 164 behind them.
#[tactic(auto, unfolding(rules::specs::Commands::may_free, rules::specs::Commands::passing, layout::specs::Basics::check))]
pub fn may_free(m: Medium, image: &[u8], t: Table, s: u16) -> Result<(), Status>
    requires { Whole m image.now × (s < 64) }
    ensures { result ≡ verdict (may_free (geometry_of m) (disk m image.now) t s) }
{
    may_change(m, image, t, s)?;
    if !clean(m, image, s) {
        return Err(status::BAD_CHAIN);
    }
    Ok(())
}
