// A search that found no file, as the refusal of the command that asked for it; and a refusal before the search.
ghost use Rattle.std.specs.Prelude.{◌≡◌};
ghost use Rattle.rules.specs.declared.Unfound.TheVariants.{Denied};
ghost use Rattle.rules.specs.Commands.{unfound_status};

use super::Unfound;
use layout::status::{NOT_FOUND, Status};

impl From<Unfound> for Status {
    ghost from_gives = { λ u s. s ≡ unfound_status u };

    fn from(u: Unfound) -> Status {
        match u {
            Unfound::Missing(_) => NOT_FOUND,
            Unfound::Denied(status) => status,
        }
    }
}

impl From<Status> for Unfound {
    ghost from_gives = { λ s u. u ≡ Denied s };

    fn from(status: Status) -> Unfound {
        Unfound::Denied(status)
    }
}
