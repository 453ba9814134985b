// The command of each number.
ghost use Rattle.std.specs.Prelude.{◌≡◌};
ghost use Rattle.rules.specs.Cio.{command_of, TellsCommand};

use layout::status;
use rules::{Command, FileCommand, Form, Transfer};

// What a command number asks for: 132 for 0 to 2, 168 for any other not listed.
#[tactic(auto, unfolding(rules::specs::Cio::command_of, layout::specs::Basics::check))]
pub fn command_of(n: u8) -> Command
    ensures { TellsCommand (command_of n) result }
{
    match n {
        3 => Command::Files(FileCommand::Open),
        5 => Command::Moves(Transfer::Get(Form::Record)),
        7 => Command::Moves(Transfer::Get(Form::Characters)),
        9 => Command::Moves(Transfer::Put(Form::Record)),
        11 => Command::Moves(Transfer::Put(Form::Characters)),
        12 => Command::Close,
        13 => Command::Files(FileCommand::Status),
        32 => Command::Files(FileCommand::Rename),
        33 => Command::Files(FileCommand::Delete),
        35 => Command::Files(FileCommand::Lock),
        36 => Command::Files(FileCommand::Unlock),
        254 => Command::Files(FileCommand::Format),
        0..=2 => Command::Unlisted(status::BAD_COMMAND),
        _ => Command::Unlisted(status::NOT_SERVED),
    }
}
