// A call's result in one u64.
ghost use Rattle.std.specs.Prelude.{◌≡◌, ◌<◌, ◌^◌};
ghost use Rattle.words.specs.Result.{result_of};

use layout::status::Status;

// What a malformed table or record answers.
pub const MALFORMED: u64 = 255;

// Status and count as one number.
pub fn pack(status: Status, count: usize) -> u64
    requires { count < 2 ^ 56 }
    ensures { result ≡ result_of status count }
{
    u64::from(status.number) + 256 * count as u64
}
