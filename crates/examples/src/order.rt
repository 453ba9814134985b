// What an order says. Behind its brace stands a word, which is known by its first letter, and behind blanks up to two numbers and a text.
// Each text between braces says one; main.rt tells what a word, a number and a field that is not there are taken for.

// How two bytes of a sector in a row are shown: the first in base 16, or the word, the slot's number or the next sector that they say.
#[derive(Clone, Copy)]
pub enum Shown {
    Byte,
    Value,
    Slot,
    Link,
}

#[derive(Clone, Copy)]
pub enum Order<'a> {
    Call {
        command: u8,
        direction: u8,
        name: &'a [u8],
    },
    Get(usize),
    Write(usize),
    Make {
        size: usize,
        name: &'a [u8],
    },
    Fill,
    Name(&'a [u8]),
    Undelete(u8),
    Header,
    Read {
        sector: u16,
        size: usize,
    },
    Show {
        shown: Shown,
        sector: u16,
        place: usize,
    },
    Image(usize),
}

// What stands before the first blank, and what stands behind it.
fn cut(text: &[u8]) -> (&[u8], &[u8]) {
    let mut halves = text.splitn(2, |b| *b == b' ');
    (
        halves.next().unwrap_or_default(),
        halves.next().unwrap_or_default(),
    )
}

// The number with one digit more, where the byte is one. It has six digits at most.
fn with_digit(n: usize, b: u8) -> usize {
    match b {
        b'0'..=b'9' => n % 100000 * 10 + (b - b'0') as usize,
        _ => n,
    }
}

// The digits of a field, as a number. Not by std's `parse`: that refuses an empty field, other bytes and a number without end.
fn decimal(field: &[u8]) -> usize {
    field.iter().fold(0, |n, b| with_digit(n, *b))
}

// A number modulo 256.
fn byte(n: usize) -> u8 {
    (n % 256) as u8
}

// A number modulo 65536.
fn word(n: usize) -> u16 {
    (n % 65536) as u16
}

impl<'a> Order<'a> {
    // The order that stands between two braces. Each text is one: what no letter tells is a `link`.
    pub fn parse(text: &'a [u8]) -> Order<'a> {
        let (name, fields) = cut(text);
        let (first, others) = cut(fields);
        let (second, last) = cut(others);
        let (n, m) = (decimal(first), decimal(second));
        match name.first() {
            Some(b'c') => Order::Call {
                command: byte(n),
                direction: byte(m),
                name: last,
            },
            Some(b'g') => Order::Get(n),
            Some(b'w') => Order::Write(n),
            Some(b'm') => Order::Make {
                size: n,
                name: others,
            },
            Some(b'f') => Order::Fill,
            Some(b'n') => Order::Name(fields),
            Some(b'u') => Order::Undelete(byte(n)),
            Some(b'h') => Order::Header,
            Some(b'r') => Order::Read {
                sector: word(n),
                size: m,
            },
            Some(b'i') => Order::Image(n),
            letter => Order::Show {
                shown: Shown::from(letter),
                sector: word(n),
                place: m,
            },
        }
    }
}

impl From<Option<&u8>> for Shown {
    fn from(letter: Option<&u8>) -> Shown {
        match letter {
            Some(b'a') => Shown::Byte,
            Some(b'v') => Shown::Value,
            Some(b's') => Shown::Slot,
            _ => Shown::Link,
        }
    }
}
