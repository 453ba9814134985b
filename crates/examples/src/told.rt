// What a call answers, in the one number that C gets.
use layout::status::SUCCESS;
use std::fmt;

// The status in the low eight bits, and above them the count.
#[derive(Clone, Copy)]
pub struct Told {
    pub status: u64,
    pub count: u64,
}

impl Told {
    pub fn succeeded(self) -> bool {
        self.status == u64::from(SUCCESS.number)
    }
}

impl From<u64> for Told {
    fn from(res: u64) -> Told {
        Told {
            status: res % 256,
            count: res / 256,
        }
    }
}

impl fmt::Display for Told {
    fn fmt<W: fmt::Write>(&self, f: &mut fmt::Formatter<W>) -> fmt::Result {
        write!(f, "{} with {}", self.status, self.count)
    }
}
